//! A request that an activation serves.
ghost use Rattle.std.specs.Prelude.{◌≡◌, ◌∷◌, true, false, IfOk, OnErr};
ghost use Rattle.poa_base.specs.declared.Entry.TheVariants.{Admit};
ghost use Rattle.poa_base.specs.declared.Verdict.TheVariants.{Serve};
ghost use Rattle.core_standing.specs.Kept.{StandingAgrees};
ghost use Rattle.core_standing.specs.Seen.{seen};
ghost use Rattle.core_standing.specs.Serving.{WhereItServes};

use crate::standing::Standing;
use history_standing::Flight;
use poa_base::WantMemory;

/// A request is admitted to the activation of a number, which serves it: it is in flight in that one's adapter, as
/// `advance_kept` finds it by the path of its key. Nothing changes, and it says no, where that activation isn't kept.
pub fn serve(arrival: u64, number: u32, standing: &mut Standing) -> Result<bool, WantMemory>
    ensures serves { IfOk result (λ kept. kept ≡ true
        → WhereItServes arrival number (seen standing.old)
        (λ c run past w. StandingAgrees c run (Admit w arrival (Serve number) ∷ past)
        (seen standing.new))) }
    ensures map { standing.new.activations ≡ standing.old.activations }
    ensures unkept { IfOk result (λ kept. kept ≡ false → seen standing.new ≡ seen standing.old) }
    ensures err { OnErr result (seen standing.new ≡ seen standing.old) }
{
    standing.begun()?;
    standing.activations.numbers();
    let Some(activation) = standing.activations.numbered(number) else {
        return Ok(false);
    };
    let adapter = activation.adapter;
    standing.flights.push(Flight {
        arrival,
        adapter,
        activation: Some(number),
        child: None,
    })?;
    Ok(true)
}
