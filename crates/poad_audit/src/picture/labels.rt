//! What stands before a lane.
ghost use Rattle.std.specs.Prelude.{◌≡◌, IfOk, string_bytes};
ghost use Rattle.poad_audit.specs.PictureLanes as drawn;

use crate::picture::band::Band;
use crate::picture::lane::Lane;
use journal_explain::CallName;
use poa_base::WantMemory;
use std::alloc::Global;

/// What stands before a lane.
#[tactic(auto, unfolding(crate::specs::PictureLanes::label_text))]
pub(crate) fn label_text(alloc: Global, lane: Lane) -> Result<String, WantMemory>
    ensures { IfOk result (λ text. string_bytes text ≡ drawn.label_text lane) }
{
    match lane {
        Lane::Connection(conn) => connection_text(alloc, conn),
        Lane::Call(name) => call_text(alloc, name),
        Lane::Head(band) => head_text(alloc, band_label(band)),
        Lane::One(band, number) => one_text(alloc, band, number),
    }
}

#[tactic(auto, unfolding(crate::specs::PictureLanes::label_text))]
fn connection_text(alloc: Global, conn: u32) -> Result<String, WantMemory>
    ensures { IfOk result (λ text. string_bytes text ≡ drawn.label_text (Lane.Connection conn)) }
{
    let label = format!(in alloc; "connection {conn}")?;
    head_text(alloc, label.as_str())
}

#[tactic(auto, unfolding(crate::specs::PictureLanes::label_text))]
fn call_text(alloc: Global, name: CallName) -> Result<String, WantMemory>
    ensures { IfOk result (λ text. string_bytes text ≡ drawn.label_text (Lane.Call name)) }
{
    let label = call_label(alloc, name.id, name.arrival)?;
    row_text(alloc, label.as_str())
}

fn call_label(alloc: Global, id: Option<u32>, arrival: u64) -> Result<String, WantMemory>
    ensures { IfOk result (λ text. string_bytes text ≡ drawn.call_label id arrival) }
{
    match id {
        Some(id) => Ok(format!(in alloc; "call {arrival}, id {id}")?),
        None => Ok(format!(in alloc; "call {arrival}, a command")?),
    }
}

fn band_label(band: Band) -> &'static str
    ensures { result.now ≡ drawn.band_label band }
{
    match band {
        Band::Workers => "workers",
        Band::Activations => "activations",
    }
}

#[tactic(auto, unfolding(crate::specs::PictureLanes::label_text))]
fn one_text(alloc: Global, band: Band, number: u32) -> Result<String, WantMemory>
    ensures { IfOk result (λ text. string_bytes text ≡ drawn.label_text (Lane.One band number)) }
{
    let label = one_label(alloc, band, number)?;
    row_text(alloc, label.as_str())
}

fn one_label(alloc: Global, band: Band, number: u32) -> Result<String, WantMemory>
    ensures { IfOk result (λ text. string_bytes text ≡ drawn.one_label band number) }
{
    match band {
        Band::Workers => Ok(format!(in alloc; "worker {number}")?),
        Band::Activations => Ok(format!(in alloc; "activation {number}")?),
    }
}

/// Of a lane that heads others.
fn head_text(alloc: Global, label: &str) -> Result<String, WantMemory>
    ensures { IfOk result (λ text. string_bytes text ≡ drawn.head_text label.now) }
{
    format!(in alloc; "<text class='lane' x='100' y='80'>{label}</text>\n")
}

/// Of one that has bars.
fn row_text(alloc: Global, label: &str) -> Result<String, WantMemory>
    ensures { IfOk result (λ text. string_bytes text ≡ drawn.row_text label.now) }
{
    format!(in alloc; "<path class='row' d='M1500 50H15500'/><text x='200' y='80'>{label}</text>\n")
}
