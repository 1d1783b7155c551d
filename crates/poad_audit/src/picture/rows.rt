//! The lanes of a picture, with the bars on them.
ghost use Rattle.std.specs.Prelude.{◌≡◌, ◌++◌, IfOk, OnOk, string_bytes};
ghost use Rattle.poad_audit.specs.Story.{lines_by};
ghost use Rattle.poad_audit.specs.PictureBars as bars;
ghost use Rattle.poad_audit.specs.PictureLanes as drawn;

use crate::picture::bar::Bar;
use crate::picture::labels::label_text;
use crate::picture::lane::Lane;
use crate::picture::window::Window;
use crate::picture::words::{phase_text, phase_word};
use poa_base::{Bytes, WantMemory};
use std::alloc::Global;

/// Adds the lanes, each below the ones before it.
pub(crate) fn put_lanes(
    alloc: Global,
    out: &mut Vec<u8>,
    window: Window,
    bars: &[Bar],
    lanes: &[Lane],
) -> Result<(), WantMemory>
    ensures { OnOk result (out.new.items ≡ out.old.items ++ drawn.lanes_text window bars.now 0 lanes.now) }
{
    for (row, lane) in lanes.iter().enumerate() {
        let text = lane_text(alloc, window, bars, row as u64, *lane)?;
        out.extend_from_slice(text.as_slice())?;
    }
    Ok(())
}

#[tactic(auto, unfolding(crate::specs::PictureLanes::lane_text))]
fn lane_text(
    alloc: Global,
    window: Window,
    bars: &[Bar],
    row: u64,
    lane: Lane,
) -> Result<Bytes, WantMemory>
    ensures { IfOk result (λ text. text ≡ drawn.lane_text window bars.now row lane) }
{
    let label = label_text(alloc, lane)?;
    let head = lane_head(alloc, row)?;
    let mut out = head.into_bytes();
    out.extend_from_slice(label.as_bytes())?;
    put_bars(alloc, &mut out, window, lane, bars)?;
    out.extend_from_slice(b"</g>\n")?;
    Ok(Bytes::from_vec(out))
}

#[tactic(auto, unfolding(crate::specs::PictureLanes::lane_head))]
fn lane_head(alloc: Global, row: u64) -> Result<String, WantMemory>
    ensures { IfOk result (λ text. string_bytes text ≡ drawn.lane_head row) }
{
    format!(in alloc; "<g transform='translate(0 {row}00)'>\n")
}

/// Adds the bars that lie on a lane.
fn put_bars(
    alloc: Global,
    out: &mut Vec<u8>,
    window: Window,
    lane: Lane,
    bars: &[Bar],
) -> Result<(), WantMemory>
    ensures { OnOk result (out.new.items ≡ out.old.items ++ lines_by (drawn.bar_on window lane) bars.now) }
{
    for bar in bars {
        let text = bar_on(alloc, window, lane, *bar)?;
        out.extend_from_slice(text.as_slice())?;
    }
    Ok(())
}

/// A bar, where it lies on the lane.
fn bar_on(alloc: Global, window: Window, lane: Lane, bar: Bar) -> Result<Bytes, WantMemory>
    ensures { IfOk result (λ text. text ≡ drawn.bar_on window lane bar) }
{
    if !lane.has(&bar) {
        return Ok(Bytes::new(alloc));
    }
    bar_line(alloc, window, bar)
}

fn bar_line(alloc: Global, window: Window, bar: Bar) -> Result<Bytes, WantMemory>
    ensures { IfOk result (λ line. line ≡ bars.bar_line window bar) }
{
    let words = phase_text(alloc, bar.phase)?;
    let head = bar_head(alloc, window, bar)?;
    let tail = bar_tail(alloc, bar)?;
    let mut out = head.into_bytes();
    out.extend_from_slice(words.as_slice())?;
    out.extend_from_slice(tail.as_bytes())?;
    Ok(Bytes::from_vec(out))
}

/// How it looks, from where to where, and of which call it is.
fn bar_head(alloc: Global, window: Window, bar: Bar) -> Result<String, WantMemory>
    ensures { IfOk result (λ text. string_bytes text ≡ bars.bar_head window bar) }
{
    let (look, ending) = (phase_word(bar.phase), window.ending(bar.end));
    let left = window.place(window.offset(bar.begin));
    let right = window.place(window.end_offset(bar.end));
    let call = bar.call;
    format!(in alloc; "<path class='{look} {ending}' d='M{left} 50H{right}'><title>call {call}: ")
}

/// From which entry to which it is.
fn bar_tail(alloc: Global, bar: Bar) -> Result<String, WantMemory>
    ensures { IfOk result (λ text. string_bytes text ≡ bars.bar_tail bar) }
{
    let begin = bar.begin;
    match bar.end {
        Some(end) => format!(in alloc; ", from entry {begin} to {end}</title></path>\n"),
        None => format!(in alloc; ", from entry {begin} on</title></path>\n"),
    }
}
