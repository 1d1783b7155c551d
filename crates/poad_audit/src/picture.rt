//! Calls drawn as SVG: a row for each call, for each worker and for each activation, and on it a bar for each phase, from the
//! entry that began it to the one that ended it.
ghost use Rattle.std.specs.Prelude.{◌≡◌, IfOk};
ghost use Rattle.poad_audit.specs.Picture as drawn;

mod band;
mod bar;
mod bars;
mod drawing;
mod labels;
mod lane;
mod lanes;
mod numbers;
mod phase;
mod rows;
mod scale;
mod style;
mod window;
mod words;

use bar::Bar;
use bars::{bars_in, latest, shown};
use drawing::drawing;
use journal_explain::Trail;
use lanes::{lanes_in, names_in};
use poa_base::{Bytes, WantMemory};
use std::alloc::Global;
use window::Window;

/// Draws these calls, from the one entry to the other, or to the last with which something happened to one of them.
#[tactic(auto, unfolding(crate::specs::Picture::picture_text))]
pub(crate) fn picture_text(
    alloc: Global,
    trails: &[Trail],
    from: u64,
    to: u64,
) -> Result<Bytes, WantMemory>
    ensures { IfOk result (λ text. text ≡ drawn.picture_text trails.now from to) }
{
    let all = bars_in(alloc, trails)?;
    let window = Window::new(from, to.min(latest(all.as_slice())));
    let bars = shown(alloc, window, all.as_slice())?;
    picture_in(alloc, window, bars.as_slice(), trails)
}

/// Draws the calls that have these bars.
#[tactic(auto, unfolding(crate::specs::Picture::picture_in))]
fn picture_in(
    alloc: Global,
    window: Window,
    bars: &[Bar],
    trails: &[Trail],
) -> Result<Bytes, WantMemory>
    ensures { IfOk result (λ text. text ≡ drawn.picture_in window bars.now trails.now) }
{
    let names = names_in(alloc, bars, trails)?;
    let lanes = lanes_in(alloc, names.as_slice(), bars)?;
    drawing(alloc, window, names.len() as u64, bars, lanes.as_slice())
}
