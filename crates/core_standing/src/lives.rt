//! How far an activation has come: its incarnation, its leaving of the map, its etherealization. Each change is
//! made in place and takes no memory.
ghost use Rattle.std.specs.Prelude.{◌≡◌, true};
ghost use Rattle.history_standing.specs.Changes as changes;
ghost use Rattle.core_standing.specs.Seen.{seen};

use crate::standing::Standing;
use history_standing::Phase;

/// The activation that is being incarnated has come so far.
pub fn complete(standing: &mut Standing, number: u32, phase: Phase)
    ensures { seen standing.new
        ≡ changes.with_activations (changes.at_number number (changes.come_to phase))
        (seen standing.old) }
{
    standing.activations.bring(number, phase);
}

/// The activation of this number is taken out of the map.
pub fn take_out(standing: &mut Standing, number: u32)
    ensures { seen standing.new ≡ changes.with_takeout number (seen standing.old) }
{
    standing.activations.take_out(number);
}

/// The servant of the activation that was taken out is etherealized.
pub fn etherealize(standing: &mut Standing, number: u32)
    ensures { seen standing.new
        ≡ changes.with_activations
        (changes.at_number number (λ a. record a { etherealized = true }))
        (seen standing.old) }
{
    standing.activations.etherealize(number);
}
