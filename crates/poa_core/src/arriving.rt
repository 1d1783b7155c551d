//! Calls arrive.
ghost use Rattle.std.specs.Prelude.{◌≡◌, false};
ghost use Rattle.poa_base.specs.declared.Call.{Call as CallOf};
ghost use Rattle.poa_history.specs.Legal.{IsOpen, IsSize};
ghost use Rattle.poa_history.specs.Limits as limits;
ghost use Rattle.poa_core.specs.Answers as answers;
ghost use Rattle.poa_core.specs.Arriving as arriving;

use crate::arrive_fault::ArriveFault;
use core_run::Run;
use poa_base::Call;

/// A call that isn't taken fills the run, where it is the first such call. Takes no memory.
fn refuse(run: &mut Run, conn: u32, size: u64) -> ArriveFault
    requires conn { IsOpen run.old.history conn }
    requires size { IsSize size }
    requires refused { (call : CallOf)
        × (limits.is_taken run.old.limit run.old.history size call ≡ false) }
    ensures { arriving.Refuses conn size run.old result run.new }
{
    if let Some(full) = run.filled() {
        return ArriveFault::Limit {
            arrivals: full.arrivals,
            bytes: full.bytes,
        };
    }
    let arrivals = run.arrivals();
    let bytes = run.bytes();
    run.fill(conn, size);
    ArriveFault::Limit { arrivals, bytes }
}

/// A call of so many bytes arrives on a connection that is open, and gets its number; or the run is full, or
/// nothing changes.
pub fn arrive(run: &mut Run, conn: u32, call: Call, size: u64) -> Result<u64, ArriveFault>
    requires conn { IsOpen run.old.history conn }
    requires size { IsSize size }
    ensures { answers.Arrives conn call size run.old result run.new }
{
    if !run.is_taken(&call, size) {
        drop(call);
        return Err(refuse(run, conn, size));
    }
    let arrival = run.arrivals();
    if run.arrive(conn, call, size).is_err() {
        return Err(ArriveFault::WantMemory);
    }
    Ok(arrival)
}
