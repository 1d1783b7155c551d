//! System exceptions as they are told: CORBA 3.3 Part 1, A.5, and Part 2, 9.4.3.2.
ghost use Rattle.std.specs.Prelude.{◌≡◌, ◌+◌, ◌^◌, ◌<◌, length, take, OnOk};
ghost use Rattle.cdr_core.specs.Fields.{with_fields};
ghost use Rattle.giop_answer.specs.Exception.{exception_id as id_of, completion_number as number_of, exception_fields};

use cdr_core::Writer;
use poa_base::minors::completion_of;
use poa_base::{Completion, ExcName, SysExc, WantMemory};

/// COMPLETED_YES.
pub(crate) const COMPLETED_YES: u32 = 0;
/// COMPLETED_NO.
pub(crate) const COMPLETED_NO: u32 = 1;
/// COMPLETED_MAYBE.
pub(crate) const COMPLETED_MAYBE: u32 = 2;

/// The body of a system exception: its repository id, its minor code and the completion.
pub(crate) fn put_exception(writer: &mut Writer, raised: &SysExc) -> Result<(), WantMemory>
    ensures ok { OnOk result (writer.new ≡ with_fields (exception_fields raised.now) writer.old) }
    ensures front { take (length writer.old.bytes) writer.new.bytes ≡ writer.old.bytes }
{
    writer.put_text(exception_id(raised.name))?;
    writer.ulong(raised.minor)?;
    writer.ulong(completion_number(completion_of(raised.minor)))
}

// The repository id of an exception.
fn exception_id(name: ExcName) -> &'static [u8]
    ensures { result.now ≡ id_of name }
{
    match name {
        ExcName::ObjectNotExist => b"IDL:omg.org/CORBA/OBJECT_NOT_EXIST:1.0",
        ExcName::Transient => b"IDL:omg.org/CORBA/TRANSIENT:1.0",
        ExcName::ObjAdapter => b"IDL:omg.org/CORBA/OBJ_ADAPTER:1.0",
        ExcName::BadOperation => b"IDL:omg.org/CORBA/BAD_OPERATION:1.0",
        ExcName::Marshal => b"IDL:omg.org/CORBA/MARSHAL:1.0",
        ExcName::Unknown => b"IDL:omg.org/CORBA/UNKNOWN:1.0",
    }
}

// The number of a completion status.
fn completion_number(completion: Completion) -> u32
    ensures { result ≡ number_of completion }
{
    match completion {
        Completion::Yes => COMPLETED_YES,
        Completion::No => COMPLETED_NO,
        Completion::Maybe => COMPLETED_MAYBE,
    }
}
