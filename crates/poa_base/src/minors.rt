//! The minor codes of the system exceptions: CORBA 3.3 Part 1, A.5. Those of the OMG begin at 0x4F4D0000
//! (OMGVMCID), those of this server at 0xFFFFF000; the low bits number them within one exception.

ghost use Rattle.std.specs.Prelude.{◌≡◌};
ghost use Rattle.poa_base.specs.Minors as told;

use crate::exception::Completion;

/// TRANSIENT 1 of the OMG: the manager discards requests, or too many calls stood unadmitted.
pub const DISCARDED: u32 = 0x4F4D_0001;

/// TRANSIENT 4 of the OMG: the adapter is being destroyed.
pub const ADAPTER_DYING: u32 = 0x4F4D_0004;

/// OBJ_ADAPTER 1 of the OMG: the adapter activator raised an exception.
pub const ACTIVATOR_RAISED: u32 = 0x4F4D_0001;

/// OBJ_ADAPTER 3 of the OMG: there is no default servant.
pub const NO_DEFAULT_SERVANT: u32 = 0x4F4D_0003;

/// OBJ_ADAPTER 4 of the OMG: there is no servant manager.
pub const NO_SERVANT_MANAGER: u32 = 0x4F4D_0004;

/// OBJ_ADAPTER 5 of the OMG: the servant activator brought a servant that is active under another id, where
/// ids are unique.
pub const SERVANT_DOUBLE: u32 = 0x4F4D_0005;

/// OBJECT_NOT_EXIST 2 of the OMG: there is no adapter of the key's path, and none was made.
pub const NO_ADAPTER: u32 = 0x4F4D_0002;

/// OBJECT_NOT_EXIST 1 of this server: the target is no spelling of a key.
pub const BAD_KEY: u32 = 0xFFFF_F001;

/// OBJECT_NOT_EXIST 2 of this server: the key is of another lifespan than its adapter, of another run, or of
/// an earlier adapter of the path.
pub const OTHER_LIFESPAN: u32 = 0xFFFF_F002;

/// OBJECT_NOT_EXIST 3 of this server: no object of the id is active, and none is brought.
pub const NOT_ACTIVE: u32 = 0xFFFF_F003;

/// OBJ_ADAPTER 5 of this server: the manager is INACTIVE.
pub const MANAGER_INACTIVE: u32 = 0xFFFF_F005;

/// BAD_OPERATION 7 of this server: the servant has no operation of this name.
pub const UNKNOWN_OPERATION: u32 = 0xFFFF_F007;

/// MARSHAL 8 of this server: the arguments can't be read.
pub const BAD_ARGUMENTS: u32 = 0xFFFF_F008;

/// UNKNOWN 9 of this server: a fault servant raised it. Of this minor alone the completion is MAYBE.
pub const FAULT_SERVANT: u32 = 0xFFFF_F009;

/// OBJECT_NOT_EXIST 10 of this server: the persistent key has another tag than its adapter's template.
pub const OTHER_TAG: u32 = 0xFFFF_F00A;

/// Whether the operation had ended when an exception of this minor code was raised.
pub fn completion_of(minor: u32) -> Completion
    ensures { result ≡ told.completion_of minor }
{
    if minor == FAULT_SERVANT {
        Completion::Maybe
    } else {
        Completion::No
    }
}
