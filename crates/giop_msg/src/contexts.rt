//! Service contexts, which aren't kept: CORBA 3.3 Part 2, 9.4.2.
ghost use Rattle.std.specs.Prelude.{OnErr, OnOk};
ghost use Rattle.cdr_core.specs.Cursor.{Cursor};
ghost use Rattle.giop_msg.specs.Contexts.{IsContexts};
ghost use Rattle.giop_msg.specs.Reading.{IsContext, HasContexts};

use cdr_core::{PartFault, View};

/// Passes the service contexts that stand at the view, with their count.
pub fn pass_counted(view: &mut View<'_>) -> Result<(), PartFault>
    ensures ok { OnOk result (IsContexts view.old view.new) }
    ensures bad { OnErr result ((after : Cursor) → IsContexts view.old after → ⊥) }
{
    let count = view.ulong()?;
    pass_contexts(view, count)
}

/// So many service contexts.
pub(crate) fn pass_contexts(view: &mut View<'_>, count: u32) -> Result<(), PartFault>
    ensures ok { OnOk result (HasContexts count view.old view.new) }
    ensures bad { OnErr result ((after : Cursor) → HasContexts count view.old after → ⊥) }
{
    for _ in 0..count {
        pass_context(view)?;
    }
    Ok(())
}

// One service context: its id and its data.
fn pass_context(view: &mut View<'_>) -> Result<(), PartFault>
    ensures ok { OnOk result (IsContext view.old view.new) }
    ensures bad { OnErr result ((after : Cursor) → IsContext view.old after → ⊥) }
{
    view.ulong()?;
    view.octets()?;
    Ok(())
}
