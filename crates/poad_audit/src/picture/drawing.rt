//! A picture, put together.
ghost use Rattle.std.specs.Prelude.{◌≡◌, ◌+◌, ◌^◌, ◌<◌, ◌++◌, IfOk, OnOk, string_bytes};
ghost use Rattle.poad_audit.specs.Picture as drawn;

use crate::picture::bar::Bar;
use crate::picture::lane::Lane;
use crate::picture::rows::put_lanes;
use crate::picture::scale::put_scale;
use crate::picture::style::{put_legend, put_sheet};
use crate::picture::window::Window;
use poa_base::{Bytes, WantMemory};
use std::alloc::Global;

/// The lanes with these bars, of so many calls.
#[tactic(auto, unfolding(crate::specs::Picture::drawing))]
pub(crate) fn drawing(
    alloc: Global,
    window: Window,
    calls: u64,
    bars: &[Bar],
    lanes: &[Lane],
) -> Result<Bytes, WantMemory>
    ensures { IfOk result (λ text. text ≡ drawn.drawing window calls bars.now lanes.now) }
{
    let mut out = frame(alloc, lanes.len() as u64)?.into_bytes();
    put_front(alloc, &mut out, window, calls)?;
    put_body(alloc, &mut out, window, bars, lanes)?;
    Ok(Bytes::from_vec(out))
}

/// Adds what stands above.
#[tactic(auto, unfolding(crate::specs::Picture::front))]
fn put_front(alloc: Global, out: &mut Vec<u8>, window: Window, calls: u64) -> Result<(), WantMemory>
    ensures { OnOk result (out.new.items ≡ out.old.items ++ drawn.front window calls) }
{
    let title = title(alloc, window, calls)?;
    put_sheet(out)?;
    out.extend_from_slice(title.as_bytes())?;
    put_legend(out)
}

/// Adds the lanes with these bars, and their scale.
#[tactic(auto, unfolding(crate::specs::Picture::body))]
fn put_body(
    alloc: Global,
    out: &mut Vec<u8>,
    window: Window,
    bars: &[Bar],
    lanes: &[Lane],
) -> Result<(), WantMemory>
    ensures { OnOk result (out.new.items ≡ out.old.items ++ drawn.body window bars.now lanes.now) }
{
    out.extend_from_slice(b"<g transform='translate(0 800)'>\n")?;
    put_scale(alloc, out, window, lanes.len() as u64)?;
    put_lanes(alloc, out, window, bars, lanes)?;
    out.extend_from_slice(b"</g>\n</svg>\n")
}

/// The begin of the picture, with so many rows.
#[tactic(auto, unfolding(crate::specs::Picture::frame))]
fn frame(alloc: Global, rows: u64) -> Result<String, WantMemory>
    requires { rows + 10 < 2 ^ 64 }
    ensures { IfOk result (λ text. string_bytes text ≡ drawn.frame rows) }
{
    let height = rows + 10;
    format!(in alloc;
        "<svg xmlns='http://www.w3.org/2000/svg' width='1600' height='{height}0' viewBox='0 0 16000 {height}00'>\n"
    )
}

#[tactic(auto, unfolding(crate::specs::Picture::title))]
fn title(alloc: Global, window: Window, calls: u64) -> Result<String, WantMemory>
    ensures { IfOk result (λ text. string_bytes text ≡ drawn.title window calls) }
{
    let (from, to) = (window.from, u64::from(window.from) + u64::from(window.span));
    format!(in alloc;
        "<text class='lane' x='100' y='170'>entries {from} to {to}, {calls} calls</text>\n"
    )
}
