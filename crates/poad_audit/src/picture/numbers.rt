//! Numbers in order, each once.
ghost use Rattle.std.specs.Prelude.{◌≡◌, ◌≤◌, ◌==◌, filter, length, nat_lt, IfOk, OnOk, Some, []};
ghost use Rattle.std.specs.List.{list_any};
ghost use Rattle.poad_audit.specs.PictureLanes as drawn;

use crate::picture::band::Band;
use crate::picture::bar::Bar;
use journal_explain::CallName;
use poa_base::WantMemory;
use std::alloc::Global;

/// Enters a number among those that are known.
fn enter(known: &mut Vec<u32>, number: u32) -> Result<(), WantMemory>
    ensures { OnOk result (known.new.items ≡ drawn.entered number known.old.items) }
{
    if is_known(known.as_slice(), number) {
        Ok(())
    } else {
        insert(known, number)
    }
}

fn is_known(known: &[u32], number: u32) -> bool
    ensures { result ≡ list_any (λ x. x == number) known.now }
{
    known.iter().any(|own| *own == number)
}

/// Puts a number behind all that are less.
fn insert(known: &mut Vec<u32>, number: u32) -> Result<(), WantMemory>
    ensures { OnOk result (known.new.items ≡ drawn.inserted number known.old.items) }
{
    let place = place_for(known.as_slice(), number);
    known.insert(place, number)?;
    Ok(())
}

/// Enters a number, where there is one.
fn enter_if(known: &mut Vec<u32>, number: Option<u32>) -> Result<(), WantMemory>
    ensures { OnOk result (known.new.items ≡ drawn.entered_if number known.old.items) }
{
    match number {
        Some(number) => enter(known, number),
        None => Ok(()),
    }
}

/// How many are less.
fn place_for(known: &[u32], number: u32) -> usize
    ensures place { result ≡ length (filter (λ x. nat_lt x number) known.now) }
    ensures within { result ≤ length known.now }
{
    known.iter().filter(|own| **own < number).count()
}

/// The connections of these calls.
pub(crate) fn connections_in(alloc: Global, names: &[CallName]) -> Result<Vec<u32>, WantMemory>
    ensures { IfOk result (λ known. known.items ≡ drawn.numbers_by (λ name. Some name.conn) [] names.now) }
{
    let mut known = Vec::new(alloc);
    for name in names {
        enter(&mut known, name.conn)?;
    }
    Ok(known)
}

/// The workers, or the activations, that are at these bars.
pub(crate) fn numbers_in(alloc: Global, band: Band, bars: &[Bar]) -> Result<Vec<u32>, WantMemory>
    ensures { IfOk result (λ known. known.items ≡ drawn.numbers_by (drawn.number_on band) [] bars.now) }
{
    let mut known = Vec::new(alloc);
    for bar in bars {
        enter_if(&mut known, band.number_on(bar))?;
    }
    Ok(known)
}
