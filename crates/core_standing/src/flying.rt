//! What an entry begins and ends in flight.
ghost use Rattle.std.specs.Prelude.{◌≡◌, ◌==◌, filter, not, IfOk, OnOk, OnErr, option_copied};
ghost use Rattle.history_standing.specs.Changes as changes;
ghost use Rattle.core_standing.specs.Seen.{seen};

use crate::beginning::begun;
use crate::standing::Standing;
use history_standing::flights::flight_of;
use history_standing::walks::{adapter_met, child_met, walk};
use history_standing::{Flight, Phase};
use object_key::KeyView;
use poa_base::{Name, Path, Verdict, WantMemory};
use std::alloc::Global;

/// A request is admitted to the adapter of its key.
fn add_request(
    standing: &mut Standing,
    arrival: u64,
    key: &KeyView<'_>,
    activation: Option<u32>,
) -> Result<(), WantMemory>
    ensures ok { OnOk result
        (seen standing.new ≡ changes.with_request arrival key.now activation (seen standing.old)) }
    ensures err { OnErr result (seen standing.new ≡ seen standing.old) }
{
    let adapter = adapter_met(walk(&standing.nodes, key.path()));
    standing.flights.push(Flight {
        arrival,
        adapter,
        activation,
        child: None,
    })?;
    Ok(())
}

/// The same names.
fn copied(alloc: Global, names: &[Name]) -> Result<Vec<Name>, WantMemory>
    ensures { IfOk result (λ copy. copy.items ≡ names.now) }
{
    let mut copy = Vec::new(alloc);
    for name in names {
        copy.push(name.clone()?)?;
    }
    Ok(copy)
}

/// A path of these names.
fn path_of(alloc: Global, names: &[Name]) -> Result<Path, WantMemory>
    ensures { IfOk result (λ path. path ≡ names.now) }
{
    Path::from_vec(copied(alloc, names)?).ok_or(WantMemory)
}

/// An adapter activator is asked for the missing child.
fn add_trial(
    alloc: Global,
    standing: &mut Standing,
    arrival: u64,
    key: &KeyView<'_>,
) -> Result<(), WantMemory>
    ensures ok { OnOk result
        (seen standing.new ≡ changes.with_trial arrival key.now (seen standing.old)) }
    ensures err { OnErr result (seen standing.new ≡ seen standing.old) }
{
    let path = key.path().to_path(alloc)?;
    let found = walk(&standing.nodes, key.path());
    let child = path_of(alloc, child_met(found, path.as_slice()))?;
    standing.flights.push(Flight {
        arrival,
        adapter: adapter_met(found),
        activation: None,
        child: Some(child),
    })?;
    Ok(())
}

/// A request is admitted, and its activation begun. The flight has its room before either changes.
fn add_incarnation(
    alloc: Global,
    standing: &mut Standing,
    arrival: u64,
    key: &KeyView<'_>,
) -> Result<(), WantMemory>
    ensures ok { OnOk result
        (seen standing.new ≡ changes.with_incarnation arrival key.now (seen standing.old)) }
    ensures err { OnErr result (seen standing.new ≡ seen standing.old) }
{
    let number = standing.begun()?;
    let adapter = adapter_met(walk(&standing.nodes, key.path()));
    let key = key.to_key(alloc)?;
    let activation = begun(number, adapter, key.path, key.oid, Phase::Begun);
    standing.flights.reserve(1)?;
    standing.activations.push(activation)?;
    standing.flights.push_reserved(Flight {
        arrival,
        adapter,
        activation: Some(number),
        child: None,
    });
    Ok(())
}

/// What the Admit of a request begins.
pub fn admit(
    alloc: Global,
    standing: &mut Standing,
    arrival: u64,
    key: Option<KeyView<'_>>,
    verdict: &Verdict,
) -> Result<(), WantMemory>
    ensures ok { OnOk result
        (seen standing.new ≡ changes.with_admitted arrival key.entry verdict.now
        (seen standing.old)) }
    ensures err { OnErr result (seen standing.new ≡ seen standing.old) }
{
    let Some(key) = key else {
        return Ok(());
    };
    match verdict {
        Verdict::Serve(number) => add_request(standing, arrival, &key, Some(*number)),
        Verdict::Preset(_) | Verdict::Locator(_) => add_request(standing, arrival, &key, None),
        Verdict::Incarnate(_) => add_incarnation(alloc, standing, arrival, &key),
        Verdict::Try => add_trial(alloc, standing, arrival, &key),
        _ => Ok(()),
    }
}

/// What is in flight for an arrival is taken off.
fn take_off(flights: &mut Vec<Flight>, arrival: u64)
    ensures { flights.new.items ≡ filter (λ f. not (f.arrival == arrival)) flights.old.items }
{
    flights.retain(|flight| flight.arrival != arrival);
}

/// The request or trial of an arrival ends. Takes no memory.
pub fn end_flight(standing: &mut Standing, arrival: Option<u64>)
    ensures { seen standing.new ≡ changes.without_flight arrival (seen standing.old) }
{
    if let Some(arrival) = arrival {
        take_off(&mut standing.flights, arrival);
    }
}

/// The path of the missing child for which the arrival is tried.
pub fn child_tried<'a>(flights: &'a [Flight], arrival: Option<u64>) -> Option<&'a Path>
    ensures { option_copied result ≡ changes.child_tried flights.now arrival }
{
    match arrival {
        Some(arrival) => match flight_of(flights, arrival) {
            Some(flight) => flight.child.as_ref(),
            None => None,
        },
        None => None,
    }
}
