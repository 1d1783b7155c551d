//! Connections enter.
ghost use Rattle.poa_core.specs.Answers as answers;

use crate::enter_fault::EnterFault;
use core_run::Run;

/// A connection enters, and gets its number; or nothing changes.
pub fn enter(run: &mut Run) -> Result<u32, EnterFault>
    ensures { answers.Enters run.old result run.new }
{
    let Some(conn) = run.next_connection() else {
        return Err(EnterFault::Limit {
            conns: run.connections(),
            arrivals: run.arrivals(),
            bytes: run.bytes(),
        });
    };
    if run.enter(conn).is_err() {
        return Err(EnterFault::WantMemory);
    }
    Ok(conn)
}
