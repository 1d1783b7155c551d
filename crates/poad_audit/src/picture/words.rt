//! The phases of a call in words.
ghost use Rattle.std.specs.Prelude.{◌≡◌, IfOk};
ghost use Rattle.poad_audit.specs.PicturePhases as drawn;

use crate::picture::phase::Phase;
use crate::story::hold_text;
use crate::verdict_text::fixed;
use held_queue::Hold;
use poa_base::{Bytes, WantMemory};
use std::alloc::Global;

fn cause_word(hold: Hold) -> &'static str
    ensures { result.now ≡ drawn.cause_word hold }
{
    match hold {
        Hold::Manager(_) => "manager",
        Hold::Trial(_) => "trial",
        Hold::Turn(_) => "turn",
        Hold::Main => "main",
        Hold::Id(_) => "id",
        Hold::Change(_) => "change",
    }
}

/// The name of a phase's look.
pub(crate) fn phase_word(phase: Phase) -> &'static str
    ensures { result.now ≡ drawn.phase_word phase }
{
    match phase {
        Phase::Waiting => "waiting",
        Phase::Held(hold) => cause_word(hold),
        Phase::Trying => "trying",
        Phase::Bringing => "bringing",
        Phase::Serving => "serving",
        Phase::Running => "running",
        Phase::Closing => "closing",
        Phase::Pending => "pending",
        Phase::Replying => "replying",
        Phase::Over => "over",
    }
}

/// A phase in words.
pub(crate) fn phase_text(alloc: Global, phase: Phase) -> Result<Bytes, WantMemory>
    ensures { IfOk result (λ text. text ≡ drawn.phase_text phase) }
{
    match phase {
        Phase::Waiting => fixed(alloc, "waits for a worker"),
        Phase::Held(hold) => hold_text(alloc, hold),
        Phase::Trying => fixed(alloc, "the adapter activator is asked"),
        Phase::Bringing => fixed(alloc, "the servant activator is asked"),
        Phase::Serving => fixed(alloc, "a worker has it"),
        Phase::Running => fixed(alloc, "its servant ran"),
        Phase::Closing => fixed(alloc, "its reply was taken before its end"),
        Phase::Pending => fixed(alloc, "its answer waits"),
        Phase::Replying => fixed(alloc, "its reply waits to be taken"),
        Phase::Over => fixed(alloc, "it is over"),
    }
}
