//! The bars of calls.
ghost use Rattle.std.specs.Prelude.{◌≡◌, ◌++◌, filter, IfOk, OnOk, Some};
ghost use Rattle.poa_history.specs.Replies.{asks};
ghost use Rattle.poad_audit.specs.PictureBars as drawn;

use crate::picture::bar::Bar;
use crate::picture::phase::is_phase;
use crate::picture::window::Window;
use journal_explain::{Step, Trail};
use poa_base::{Call, WantMemory};
use std::alloc::Global;

/// The bars of all these calls.
pub(crate) fn bars_in(alloc: Global, trails: &[Trail]) -> Result<Vec<Bar>, WantMemory>
    ensures { IfOk result (λ bars. bars.items ≡ drawn.bars_in trails.now) }
{
    let mut bars = Vec::new(alloc);
    for trail in trails {
        put_bars(&mut bars, trail)?;
    }
    Ok(bars)
}

/// Adds those of a call.
fn put_bars(bars: &mut Vec<Bar>, trail: &Trail) -> Result<(), WantMemory>
    ensures { OnOk result (bars.new.items ≡ bars.old.items ++ drawn.bars_of trail.now) }
{
    let asked = is_asking(&trail.call);
    let mut bar = Bar::unseen(trail.name.arrival);
    for step in trail.steps.as_slice() {
        let after = put_step(bars, bar, asked, step)?;
        bar = after;
    }
    bars.push(bar)?;
    Ok(())
}

/// Adds the bar that ends with a step, where that begins another; and gives the one that is there behind it.
fn put_step(bars: &mut Vec<Bar>, bar: Bar, asked: bool, step: &Step) -> Result<Bar, WantMemory>
    ensures bars { OnOk result (bars.new.items ≡ bars.old.items ++ drawn.bars_ended step.now bar) }
    ensures bar { IfOk result (λ after. after ≡ drawn.bar_after asked step.now bar) }
{
    if !is_phase(&step.event) {
        return Ok(bar);
    }
    bars.push(bar.until(step.entry))?;
    Ok(bar.then(asked, step))
}

/// Whether a call asks a reply.
fn is_asking(call: &Call) -> bool
    ensures { result ≡ asks (Some call.now) }
{
    match call {
        Call::Request { head, .. } => head.flags % 2 == 1,
        Call::Locate { .. } | Call::Line { .. } => true,
    }
}

/// The last entry with which one of them begins.
pub(crate) fn latest(bars: &[Bar]) -> u64
    ensures { result ≡ drawn.latest 0 bars.now }
{
    let mut entry = 0u64;
    for bar in bars {
        entry = entry.max(bar.begin);
    }
    entry
}

/// Those of which something lies in the window.
pub(crate) fn shown(alloc: Global, window: Window, bars: &[Bar]) -> Result<Vec<Bar>, WantMemory>
    ensures { IfOk result (λ some. some.items ≡ filter (drawn.is_shown window) bars.now) }
{
    bars.iter()
        .copied()
        .filter(|bar| window.shows(bar))
        .collect(alloc)
}
