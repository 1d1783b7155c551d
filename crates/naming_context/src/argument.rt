//! The arguments of an operation, read from the body of a request.
ghost use Rattle.std.specs.Prelude.{◌≡◌, ◌≢◌, IfOk, IfErr};
ghost use Rattle.naming_context.specs.declared.asked.Asked.{Asked as AskedData};
ghost use Rattle.naming_context.specs.Asking.{ReadsAsked, body_start, ReadsBoth, ReadsName, ReadsType};
ghost use Rattle.naming_context.specs.Reading.{NoBoth, NoName, NoType};

use crate::asked::Asked;
use crate::component::Component;
use crate::name_reading::read_name;
use crate::operation::Operation;
use cdr_core::{CdrFault, Reader};
use ior_text::read_reference;
use poa_base::{Body, Bytes, Ior, Items};
use std::alloc::Global;

/// A name, and what it is to be bound to.
#[derive(Drop)]
pub(crate) struct Binding {
    pub(crate) name: Items<Component>,
    pub(crate) object: Ior,
}

/// What is asked by this operation with the arguments in the body.
pub(crate) fn read_asked(
    alloc: Global,
    operation: Operation,
    body: &Body,
) -> Result<Asked, CdrFault>
    ensures ok { IfOk result (λ asked. ReadsAsked operation (body_start body.now) asked) }
    ensures bad { IfErr result (λ fault. fault ≢ CdrFault.WantMemory
        → (asked : AskedData) → ReadsAsked operation (body_start body.now) asked → ⊥) }
{
    match operation {
        Operation::Bind => {
            let Binding { name, object } = read_binding(alloc, body)?;
            Ok(Asked::Bind { name, object })
        }
        Operation::Rebind => {
            let Binding { name, object } = read_binding(alloc, body)?;
            Ok(Asked::Rebind { name, object })
        }
        Operation::Resolve => Ok(Asked::Resolve {
            name: read_name_alone(alloc, body)?,
        }),
        Operation::Unbind => Ok(Asked::Unbind {
            name: read_name_alone(alloc, body)?,
        }),
        Operation::BindNewContext => Ok(Asked::BindNewContext {
            name: read_name_alone(alloc, body)?,
        }),
        Operation::IsA => Ok(Asked::IsA {
            type_id: read_type(alloc, body)?,
        }),
        Operation::NonExistent => Ok(Asked::NonExistent),
    }
}

// A name and a reference.
fn read_binding(alloc: Global, body: &Body) -> Result<Binding, CdrFault>
    ensures ok { IfOk result
        (λ binding. ReadsBoth (body_start body.now) binding.name binding.object) }
    ensures bad { IfErr result
        (λ fault. fault ≢ CdrFault.WantMemory → NoBoth (body_start body.now)) }
{
    let mut reader = front(body);
    let name = read_name(alloc, &mut reader)?;
    let object = read_reference(alloc, &mut reader)?;
    Ok(Binding { name, object })
}

// A name.
fn read_name_alone(alloc: Global, body: &Body) -> Result<Items<Component>, CdrFault>
    ensures ok { IfOk result (λ name. ReadsName (body_start body.now) name) }
    ensures bad { IfErr result
        (λ fault. fault ≢ CdrFault.WantMemory → NoName (body_start body.now)) }
{
    read_name(alloc, &mut front(body))
}

// A type id.
fn read_type(alloc: Global, body: &Body) -> Result<Bytes, CdrFault>
    ensures ok { IfOk result (λ type_id. ReadsType (body_start body.now) type_id) }
    ensures bad { IfErr result
        (λ fault. fault ≢ CdrFault.WantMemory → NoType (body_start body.now)) }
{
    Ok(Bytes::from_vec(front(body).text(alloc)?))
}

// A reader at the front of a body.
fn front(body: &Body) -> Reader<'_>
    ensures { result ≡ body_start body.now }
{
    Reader::new(body.bytes.as_slice(), body.little, body.base % 8)
}
