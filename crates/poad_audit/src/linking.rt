//! The files of a link.
ghost use Rattle.std.specs.Prelude.{◌≡◌, Err};
ghost use Rattle.outside.specs.Cause.{HasCause};
ghost use Rattle.outside.specs.Told.{IfTold};
ghost use Rattle.command_words.specs.Auditing.{seen_link};
ghost use Rattle.poad_files.specs.Taking.{HoldsStill};
ghost use Rattle.poad_audit.specs.Linking.{TakesBytes};

use command_words::LinkWords;
use outside::Files;
use poa_base::Bytes;
use poad_files::{Status, take};

/// The bytes that were read over a link at most, and that were written.
const LINK_LIMIT: u64 = 67_108_864;

/// What was read of a peer and what was written to it, by the files of these names; or the status with which the command ends.
pub(crate) fn take_link<F: Files>(
    names: LinkWords<'_>,
    files: &mut F,
) -> Result<(Bytes, Bytes), Status>
    ensures taken { TakesBytes (seen_link names.entry) result (F.contents files.old)
        (F.contents files.new) }
    ensures contents { IfTold (F.contents files.old) (F.contents files.new) HoldsStill }
    ensures file_fault { HasCause (F.take_faults files.old) (F.take_faults files.new) (result
        ≡ Err Status.FileFault) }
    ensures no_file { HasCause (F.absents files.old) (F.absents files.new) (result
        ≡ Err Status.NoFile) }
    ensures too_long { HasCause (F.long_ones files.old) (F.long_ones files.new) (result
        ≡ Err Status.FileTooLong) }
{
    let input = match take(names.input, LINK_LIMIT, files) {
        Ok(input) => input,
        Err(status) => return Err(status),
    };
    match take(names.output, LINK_LIMIT, files) {
        Ok(output) => Ok((input, output)),
        Err(status) => Err(status),
    }
}
