//! Names, read.
ghost use Rattle.std.specs.Prelude.{◌≡◌, ◌≢◌, ℕ, List, length, IfOk, IfErr};
ghost use Rattle.cdr_core.specs.Cursor.{Cursor};
ghost use Rattle.giop_msg.specs.Fields.{ReadsAll};
ghost use Rattle.naming_context.specs.Names.{component_fields, components_fields, name_fields};
ghost use Rattle.naming_context.specs.Reading.{NoComponent, NoComponents, NoName};

use crate::component::Component;
use crate::istring::Istring;
use cdr_core::{CdrFault, Reader};
use poa_base::Items;
use std::alloc::Global;

/// The name that stands at the reader: its components, behind their count.
pub(crate) fn read_name(
    alloc: Global,
    reader: &mut Reader<'_>,
) -> Result<Items<Component>, CdrFault>
    ensures ok { IfOk result (λ name. ReadsAll (name_fields name) reader.old reader.new) }
    ensures bad { IfErr result (λ fault. fault ≢ CdrFault.WantMemory → NoName reader.old) }
{
    let count = reader.ulong()?;
    read_components(alloc, reader, count)
}

// So many components. Room is taken for each as it comes, and not for the count.
fn read_components(
    alloc: Global,
    reader: &mut Reader<'_>,
    count: u32,
) -> Result<Items<Component>, CdrFault>
    ensures ok { IfOk result (λ name. ReadsAll (components_fields name) reader.old reader.new) }
    ensures count { IfOk result (λ name. length name ≡ count) }
    ensures bad { IfErr result
        (λ fault. fault ≢ CdrFault.WantMemory → NoComponents count reader.old) }
{
    let mut name = Items::new(alloc);
    for _ in 0..count {
        let component = read_component(alloc, reader)?;
        name.push(component)?;
    }
    Ok(name)
}

// A component: its id and its kind.
fn read_component(alloc: Global, reader: &mut Reader<'_>) -> Result<Component, CdrFault>
    ensures ok { IfOk result
        (λ component. ReadsAll (component_fields component) reader.old reader.new) }
    ensures bad { IfErr result (λ fault. fault ≢ CdrFault.WantMemory → NoComponent reader.old) }
{
    let id = Istring::from_vec(reader.text(alloc)?);
    let kind = Istring::from_vec(reader.text(alloc)?);
    Ok(Component { id, kind })
}
