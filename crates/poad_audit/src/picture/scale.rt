//! The scale of a picture.
ghost use Rattle.std.specs.Prelude.{◌≡◌, ◌≤◌, ◌++◌, IfOk, OnOk, string_bytes};
ghost use Rattle.poad_audit.specs.Story.{lines_by};
ghost use Rattle.poad_audit.specs.Picture as drawn;

use crate::picture::window::Window;
use poa_base::{Bytes, WantMemory};
use std::alloc::Global;

/// Adds the scale for so many rows.
#[tactic(auto, unfolding(crate::specs::Picture::scale))]
pub(crate) fn put_scale(
    alloc: Global,
    out: &mut Vec<u8>,
    window: Window,
    rows: u64,
) -> Result<(), WantMemory>
    ensures { OnOk result (out.new.items ≡ out.old.items ++ drawn.scale window rows) }
{
    let twenty = [
        0, 1, 2, 3, 4, 5, 6, 7, 8, 9, 10, 11, 12, 13, 14, 15, 16, 17, 18, 19,
    ];
    put_lines(alloc, out, window, rows, &twenty)
}

/// Adds these lines of it.
fn put_lines(
    alloc: Global,
    out: &mut Vec<u8>,
    window: Window,
    rows: u64,
    numbers: &[u8],
) -> Result<(), WantMemory>
    ensures { OnOk result (out.new.items ≡ out.old.items ++ lines_by (drawn.line_at window rows) numbers.now) }
{
    for number in numbers {
        let text = line_at(alloc, window, rows, *number)?;
        out.extend_from_slice(text.as_slice())?;
    }
    Ok(())
}

/// A line, where it lies in the window.
fn line_at(alloc: Global, window: Window, rows: u64, number: u8) -> Result<Bytes, WantMemory>
    ensures { IfOk result (λ text. text ≡ drawn.line_at window rows number) }
{
    let offset = u64::from(number) * pitch(u64::from(window.span));
    if u64::from(window.span) < offset {
        return Ok(Bytes::new(alloc));
    }
    line_text(alloc, window, rows, offset)
}

fn line_text(alloc: Global, window: Window, rows: u64, offset: u64) -> Result<Bytes, WantMemory>
    requires { offset ≤ window.span }
    ensures { IfOk result (λ text. text ≡ drawn.line_text window rows offset) }
{
    let head = line_head(alloc, window.place(offset))?;
    let tail = line_tail(alloc, rows, u64::from(window.from) + offset)?;
    let mut out = head.into_bytes();
    out.extend_from_slice(tail.as_bytes())?;
    Ok(Bytes::from_vec(out))
}

#[tactic(auto, unfolding(crate::specs::Picture::line_head))]
fn line_head(alloc: Global, x: u64) -> Result<String, WantMemory>
    ensures { IfOk result (λ text. string_bytes text ≡ drawn.line_head x) }
{
    format!(in alloc; "<g transform='translate({x} 0)'>")
}

#[tactic(auto, unfolding(crate::specs::Picture::line_tail))]
fn line_tail(alloc: Global, rows: u64, entry: u64) -> Result<String, WantMemory>
    ensures { IfOk result (λ text. string_bytes text ≡ drawn.line_tail rows entry) }
{
    format!(in alloc;
        "<path class='grid' d='M0 0V{rows}00'/><text class='tick' y='-30'>{entry}</text></g>\n"
    )
}

/// How many entries lie between two lines.
fn pitch(span: u64) -> u64
    ensures value { result ≡ drawn.pitch span }
    ensures most { result ≤ 50000 }
{
    if span < 20 {
        1
    } else if span < 100 {
        5
    } else if span < 200 {
        10
    } else if span < 1000 {
        50
    } else if span < 2000 {
        100
    } else if span < 10000 {
        500
    } else if span < 20000 {
        1000
    } else if span < 100_000 {
        5000
    } else if span < 200_000 {
        10000
    } else {
        50000
    }
}
