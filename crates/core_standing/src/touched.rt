//! What an entry touches of the activations.
ghost use Rattle.std.specs.Prelude.{◌≡◌, ◌==◌, ℕ, true, false, List, Some};
ghost use Rattle.poa_base.specs.declared.Config.{Config as Conf};
ghost use Rattle.poa_base.specs.declared.Entry.{Entry as EntryOf};
ghost use Rattle.poa_base.specs.declared.Incarnation.{Incarnation as Answered};
ghost use Rattle.history_standing.specs.Changes as changes;
ghost use Rattle.history_standing.specs.Standings.{Standing as Stood};
ghost use Rattle.poa_history.specs.Entries as entries;
ghost use Rattle.history_standing.specs.declared.flight.Flight.{Flight as Flown};
ghost use Rattle.history_standing.specs.Trees.{In};
ghost use Rattle.core_standing.specs.Touched.{Others, SameOthers, Still, is_touched};
ghost use Rattle.core_standing.specs.Flying.{uses};

use history_standing::{Flight, Stage};
use poa_base::Entry;
use poa_history::workers::arrival_in;

/// Which activations an entry touches: each other one stays where it is. It may say more than it has to.
#[derive(Clone, Copy, Drop)]
pub enum Touched {
    Nothing,
    /// That of this number.
    One(u32),
    All,
}

/// These, and that of a number.
fn with(touched: Touched, number: u32) -> Touched
    ensures before { (k : ℕ) → is_touched result k ≡ false → is_touched touched k ≡ false }
    ensures one { (k : ℕ) → is_touched result k ≡ false → (number == k) ≡ false }
{
    match touched {
        Touched::Nothing => Touched::One(number),
        Touched::One(other) => {
            if other == number {
                Touched::One(number)
            } else {
                Touched::All
            }
        }
        Touched::All => Touched::All,
    }
}

/// These, and that in which the flight is, where it is one of the arrival.
fn with_flight(touched: Touched, flight: &Flight, arrival: u64) -> Touched
    ensures before { (k : ℕ) → is_touched result k ≡ false → is_touched touched k ≡ false }
    ensures one { (k : ℕ) → (flight.now.arrival == arrival) ≡ true → is_touched result k ≡ false
        → uses k flight.now ≡ false }
{
    match flight.activation {
        Some(number) if flight.arrival == arrival => with(touched, number),
        _ => touched,
    }
}

/// Those, and that of each flight of the arrival.
fn with_flights(touched: Touched, flights: &[Flight], arrival: u64) -> Touched
    ensures before { (k : ℕ) → is_touched result k ≡ false → is_touched touched k ≡ false }
    ensures each { (f : Flown) (k : ℕ) → In f flights.now → (f.arrival == arrival) ≡ true
        → is_touched result k ≡ false → uses k f ≡ false }
{
    let mut all = touched;
    for i in 0..flights.len() {
        all = with_flight(all, &flights[i], arrival);
    }
    all
}

/// Those, and that of each flight of an arrival, where one is given.
fn with_ended(touched: Touched, flights: &[Flight], arrival: Option<u64>) -> Touched
    ensures before { (k : ℕ) → is_touched result k ≡ false → is_touched touched k ≡ false }
    ensures each { (f : Flown) (q : ℕ) → In f flights.now → arrival ≡ Some q
        → (f.arrival == q) ≡ true
        → (k : ℕ) → is_touched result k ≡ false → uses k f ≡ false }
{
    match arrival {
        Some(arrival) => with_flights(touched, flights, arrival),
        None => touched,
    }
}

/// What an incarnation that ends touches: its activation, and that in which its request is in flight.
fn by_incarnation(stage: Stage, flights: &[Flight]) -> Touched
    ensures leaves { (c : Conf) (answer : Answered) (s : Stood) → s.flights ≡ flights.now
        → Still c s
        → Others c (is_touched result) (changes.with_incarnated c stage answer s) }
    ensures same { (c : Conf) (answer : Answered) (s : Stood)
        → SameOthers (is_touched result) s.activations
        (changes.with_incarnated c stage answer s).activations }
{
    match stage {
        Stage::Incarnating(arrival, number) => {
            with_flights(Touched::One(number), flights, arrival)
        }
        _ => Touched::Nothing,
    }
}

/// What a request that ends touches: that in which it is in flight.
pub fn by_landing(arrival: Option<u64>, flights: &[Flight]) -> Touched
    ensures leaves { (c : Conf) (s : Stood) → s.flights ≡ flights.now → Still c s
        → Others c (is_touched result) (changes.without_flight arrival s) }
    ensures same { (s : Stood)
        → SameOthers (is_touched result) s.activations
        (changes.without_flight arrival s).activations }
{
    with_ended(Touched::Nothing, flights, arrival)
}

/// What the servant that was taken down touches.
fn by_removal(stage: Stage) -> Touched
    ensures leaves { (c : Conf) (s : Stood) → Still c s
        → Others c (is_touched result) (changes.with_etherealized stage s) }
    ensures same { (s : Stood)
        → SameOthers (is_touched result) s.activations
        (changes.with_etherealized stage s).activations }
{
    match stage {
        Stage::Removing(number) => Touched::One(number),
        _ => Touched::Nothing,
    }
}

/// What an entry touches: of the others none leaves the map, behind a standing in which nothing is left to go, and
/// none comes or changes.
pub fn touched_by(entry: &Entry, stage: Stage, flights: &[Flight]) -> Touched
    ensures leaves { (c : Conf) (run : ℕ) (past : List EntryOf) (s : Stood)
        → s.flights ≡ flights.now
        → stage ≡ entries.stage_at past entry.now
        → Still c s → Others c (is_touched result) (changes.changed c run past entry.now s) }
    ensures same { (c : Conf) (run : ℕ) (past : List EntryOf) (s : Stood)
        → stage ≡ entries.stage_at past entry.now
        → SameOthers (is_touched result) s.activations
        (changes.changed c run past entry.now s).activations }
{
    match entry {
        Entry::Admit { .. } => Touched::All,
        Entry::Tried { .. } | Entry::Done { .. } => {
            with_ended(Touched::Nothing, flights, arrival_in(stage))
        }
        Entry::Incarnated { .. } => by_incarnation(stage, flights),
        Entry::TakeOut { activation, .. } => Touched::One(*activation),
        Entry::Etherealized { .. } => by_removal(stage),
        _ => Touched::Nothing,
    }
}
