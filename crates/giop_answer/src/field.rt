//! Arguments and results as fields.
ghost use Rattle.std.specs.Prelude.{◌≡◌, length, take, OnOk};
ghost use Rattle.cdr_core.specs.Draft.{with_field};
ghost use Rattle.giop_answer.specs.Reply.{datum_field};

use cdr_core::Writer;
use poa_base::{Datum, WantMemory};

/// An argument or a result.
pub fn put_datum(writer: &mut Writer, datum: &Datum) -> Result<(), WantMemory>
    ensures ok { OnOk result (writer.new ≡ with_field (datum_field datum.now) writer.old) }
    ensures front { take (length writer.old.bytes) writer.new.bytes ≡ writer.old.bytes }
{
    match datum {
        Datum::Long(value) => writer.longlong(*value),
        Datum::Ulong(value) => writer.ulong(*value),
        Datum::Flag(value) => writer.boolean(*value),
        Datum::Octets(bytes) => writer.put_octets(bytes.as_slice()),
        Datum::Text(bytes) => writer.put_text(bytes.as_slice()),
    }
}
