//! System exceptions, as CORBA 3.3 Part 1 names them.

/// The system exceptions that this server raises.
#[derive(Clone, Copy, PartialEq, Eq, Drop)]
pub enum ExcName {
    /// OBJECT_NOT_EXIST.
    ObjectNotExist,
    /// TRANSIENT.
    Transient,
    /// OBJ_ADAPTER.
    ObjAdapter,
    /// BAD_OPERATION.
    BadOperation,
    /// MARSHAL.
    Marshal,
    /// UNKNOWN.
    Unknown,
}

/// Whether the operation had ended when the exception was raised.
#[derive(Clone, Copy, PartialEq, Eq, Drop)]
pub enum Completion {
    Yes,
    No,
    Maybe,
}

/// A system exception with its minor code and completion.
#[derive(Clone, Copy, PartialEq, Eq, Drop)]
pub struct SysExc {
    pub name: ExcName,
    pub minor: u32,
    pub done: Completion,
}
