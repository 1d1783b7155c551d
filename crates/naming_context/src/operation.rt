//! The operations.
ghost use Rattle.std.specs.Prelude.{◌≡◌};
ghost use Rattle.naming_context.specs.Operations.{operation_of, rarer_of};

/// An operation of a naming context, or one that every object has (CORBA 3.3 Part 1, 8.3).
#[derive(Clone, Copy)]
pub enum Operation {
    Bind,
    Rebind,
    Resolve,
    Unbind,
    BindNewContext,
    IsA,
    NonExistent,
}

impl Operation {
    /// The operation of this name; none where contexts have no such operation.
    pub(crate) fn of(word: &[u8]) -> Option<Operation>
        ensures { result ≡ operation_of word.now }
    {
        if word == b"bind".as_slice() {
            Some(Operation::Bind)
        } else if word == b"rebind".as_slice() {
            Some(Operation::Rebind)
        } else if word == b"resolve".as_slice() {
            Some(Operation::Resolve)
        } else if word == b"unbind".as_slice() {
            Some(Operation::Unbind)
        } else {
            rarer(word)
        }
    }
}

// The same of the operations that are asked less.
fn rarer(word: &[u8]) -> Option<Operation>
    ensures { result ≡ rarer_of word.now }
{
    if word == b"bind_new_context".as_slice() {
        Some(Operation::BindNewContext)
    } else if word == b"_is_a".as_slice() {
        Some(Operation::IsA)
    } else if word == b"_non_existent".as_slice() {
        Some(Operation::NonExistent)
    } else {
        None
    }
}
