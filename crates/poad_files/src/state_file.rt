//! The state file: the store that a run of the server opens with.
ghost use Rattle.std.specs.Prelude.{◌≡◌, Err};
ghost use Rattle.outside.specs.Cause.{HasCause};
ghost use Rattle.outside.specs.Told.{IfTold};
ghost use Rattle.poad_files.specs.StateFile.{ReadsState, TakesState};
ghost use Rattle.poad_files.specs.Taking.{HoldsStill};

use crate::status::Status;
use crate::taking::take;
use outside::Files;
use poa_base::Store;
use poa_journal::{JournalFault, read_store};
use std::alloc::Global;

/// The bytes that a state file has at most.
const STATE_LIMIT: u64 = 268_435_456;

/// The store in a file, which is empty where no such file is there; or the status with which the command ends.
pub fn take_state<F: Files>(alloc: Global, name: &str, files: &mut F) -> Result<Store, Status>
    ensures taken { TakesState name.now result (F.contents files.old) (F.contents files.new) }
    ensures contents { IfTold (F.contents files.old) (F.contents files.new) HoldsStill }
    ensures file_fault { HasCause (F.take_faults files.old) (F.take_faults files.new) (result ≡ Err Status.FileFault) }
    ensures no_file { HasCause (F.absents files.old) (F.absents files.new) (result ≡ Err Status.NoFile) }
    ensures too_long { HasCause (F.long_ones files.old) (F.long_ones files.new) (result ≡ Err Status.FileTooLong) }
    ensures puts { F.put_faults files.new ≡ F.put_faults files.old }
{
    match take(name, STATE_LIMIT, files) {
        Ok(content) => store_of(alloc, content.as_slice()),
        Err(Status::NoFile) => Ok(Store::new(alloc)),
        Err(status) => Err(status),
    }
}

// The store of a text.
fn store_of(alloc: Global, content: &[u8]) -> Result<Store, Status>
    ensures read { ReadsState content.now result }
{
    match read_store(alloc, content) {
        Ok(store) => Ok(store),
        Err(JournalFault::BadLine { line }) => Err(Status::StateRefused { line }),
        Err(JournalFault::WantMemory) => Err(Status::WantMemory),
    }
}
