//! What is in flight.
ghost use Rattle.std.specs.Prelude.{◌≡◌, ◌==◌, ◌&&◌, Some, None, true, false, find, option_copied};
ghost use Rattle.history_standing.specs.Standings as stands;
ghost use Rattle.history_standing.specs.Paths as paths;

use crate::flight::Flight;
use poa_base::Name;

/// What is in flight for an arrival.
pub fn flight_of(flights: &[Flight], arrival: u64) -> Option<&Flight>
    ensures { option_copied result ≡ find (λ f. f.arrival == arrival) flights.now }
{
    flights.iter().find(|flight| flight.arrival == arrival)
}

/// Whether the request is in flight in the activation.
fn uses(flight: &Flight, activation: u32) -> bool
    ensures { result ≡ elim flight.now.activation [ Some m ↦ m == activation | None ↦ false ] }
{
    match flight.activation {
        Some(number) => number == activation,
        None => false,
    }
}

/// Whether a request is in flight in the activation.
pub fn is_used(flights: &[Flight], activation: u32) -> bool
    ensures { result ≡ stands.is_used flights.now activation }
{
    flights.iter().any(|flight| uses(flight, activation))
}

/// Whether a request, and not a trial, is in flight in the adapter.
fn runs_in(flight: &Flight, adapter: u32) -> bool
    ensures { result ≡ (flight.now.adapter == adapter)
        && (elim flight.now.child [ None ↦ true | Some p ↦ false ]) }
{
    flight.adapter == adapter && flight.child.is_none()
}

/// Whether a request is in flight in the adapter.
pub fn is_running(flights: &[Flight], adapter: u32) -> bool
    ensures { result ≡ stands.is_running flights.now adapter }
{
    flights.iter().any(|flight| runs_in(flight, adapter))
}

/// Whether it is a trial of this child.
fn tries(flight: &Flight, child: &[Name]) -> bool
    ensures { result ≡ elim flight.now.child [
      | Some q ↦ paths.same_path q
          child.now
      | None ↦ false
    ] }
{
    match &flight.child {
        Some(path) => path.as_slice() == child,
        None => false,
    }
}

/// Whether a trial of the missing child is in flight.
pub fn is_tried(flights: &[Flight], child: &[Name]) -> bool
    ensures { result ≡ stands.is_tried flights.now child.now }
{
    flights.iter().any(|flight| tries(flight, child))
}
