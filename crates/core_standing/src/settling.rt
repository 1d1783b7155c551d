//! What has ended goes. Each change is made in place and takes no memory.
ghost use Rattle.std.specs.Prelude.{◌≡◌, ℕ, false, true, map};
ghost use Rattle.std.specs.List.{list_any};
ghost use Rattle.history_standing.specs.Ends as ends;
ghost use Rattle.core_standing.specs.Seen.{seen};
ghost use Rattle.core_standing.specs.Touched.{Lasts, Others, is_touched, left};
ghost use Rattle.core_standing.specs.declared.touched.Touched.TheVariants.{One};
ghost use Rattle.history_standing.specs.declared.activation.Activation.{Activation};
ghost use Rattle.history_standing.specs.Trees.{In};

use crate::ends::stays;
use crate::standing::Standing;
use crate::touched::Touched;
use history_standing::Node;
use poa_base::Config;

/// What is to leave the map does, where none but what is touched is to.
fn let_out_ended(config: &Config, standing: &mut Standing, touched: Touched)
    ensures { Others config.now (is_touched touched) (seen standing.old)
        → seen standing.new ≡ record (seen standing.old) {
          activations = map (ends.let_out config.now (seen standing.old))
              (seen standing.old).activations;
        } }
{
    match touched {
        Touched::Nothing => {}
        Touched::One(number) => {
            standing
                .activations
                .let_out_at(config, &standing.flights, number);
        }
        Touched::All => standing.activations.let_out(config, &standing.flights),
    }
}

/// Whether one of the adapters is being destroyed.
fn is_any_dying(nodes: &[Node]) -> bool
    ensures { result ≡ list_any (λ n. n.dying) nodes.now }
{
    nodes.iter().any(|node| node.dying)
}

/// The adapters that are gone are dropped, from the last one down. The others are asked of those that are
/// left, which makes no difference: nothing that hasn't ended is in one that is gone.
fn drop_each(config: &Config, standing: &mut Standing)
    ensures { seen standing.new ≡ ends.without_ended config.now (seen standing.old) }
{
    for i in (0..standing.nodes.len()).rev() {
        if !stays(config, standing, &standing.nodes[i]) {
            standing.nodes.remove(i);
        }
    }
}

/// The adapters that are gone are dropped. While none is being destroyed, none is.
fn drop_gone(config: &Config, standing: &mut Standing)
    ensures { seen standing.new ≡ ends.without_ended config.now (seen standing.old) }
{
    if is_any_dying(&standing.nodes) {
        drop_each(config, standing);
    }
}

/// Whether the adapter of the activation that is touched has one that isn't over.
fn lives_on(config: &Config, standing: &Standing, touched: Touched) -> bool
    ensures { result ≡ true
        → (n : ℕ) × (touched ≡ One n) × (a : Activation) × (b : Activation)
        × In a (seen standing.now).activations
        × (a.number ≡ n) × In b (seen standing.now).activations
        × (ends.is_over config.now b ≡ false) × (b.adapter ≡ a.adapter) }
{
    let Touched::One(number) = touched else {
        return false;
    };
    match standing.activations.numbered(number) {
        Some(activation) => standing.activations.has_live(config, activation.adapter),
        None => false,
    }
}

/// What has ended goes, where no activation but what is touched is to leave the map. Where a servant left, the adapters
/// are looked at only if nothing else lives in the adapter that it left.
pub fn settle(config: &Config, standing: &mut Standing, touched: Touched, removes: bool)
    ensures { Others config.now (is_touched touched) (seen standing.old)
        → (removes ≡ true → (n : ℕ) → touched ≡ One n
        → Lasts config.now n (left config.now (seen standing.old)))
        → seen standing.new ≡ ends.settled config.now (seen standing.old) }
{
    let_out_ended(config, standing, touched);
    if removes && lives_on(config, standing, touched) {
        return;
    }
    drop_gone(config, standing);
}
