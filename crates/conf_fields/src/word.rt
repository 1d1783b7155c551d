//! Values that a configuration writes as one fixed word.
ghost use Rattle.std.specs.Prelude.{◌≡◌};

use poa_base::{Children, ExcName, Kind, ManagerState, Policy};

/// A value with a fixed word.
pub trait Word: Copy + Drop {
    ghost use Rattle.std.specs.Prelude.{ℕ, List, Option};

    /// The value of a word.
    ghost meaning: { List ℕ → Option Self };

    /// The value that the word stands for.
    fn of_word(word: &str) -> Option<Self>
        ensures { result ≡ Self.meaning word.now };
}

impl Word for ManagerState {
    ghost use Rattle.conf_fields.specs.Words.{state_of};

    ghost meaning = { state_of };

    #[tactic(auto, unfolding(crate::specs::Words::state_of))]
    fn of_word(word: &str) -> Option<Self> {
        match word {
            "holding" => Some(ManagerState::Holding),
            "active" => Some(ManagerState::Active),
            "discarding" => Some(ManagerState::Discarding),
            "inactive" => Some(ManagerState::Inactive),
            _ => None,
        }
    }
}

impl Word for Kind {
    ghost use Rattle.conf_fields.specs.Words.{kind_of};

    ghost meaning = { kind_of };

    #[tactic(auto, unfolding(crate::specs::Words::kind_of))]
    fn of_word(word: &str) -> Option<Self> {
        match word {
            "register" => Some(Kind::Register),
            "log" => Some(Kind::Log),
            "echo" => Some(Kind::Echo),
            "fault" => Some(Kind::Fault),
            _ => None,
        }
    }
}

impl Word for Children {
    ghost use Rattle.conf_fields.specs.Words.{children_of};

    ghost meaning = { children_of };

    #[tactic(auto, unfolding(crate::specs::Words::children_of))]
    fn of_word(word: &str) -> Option<Self> {
        match word {
            "create" => Some(Children::Create),
            "refuse" => Some(Children::Refuse),
            "raise" => Some(Children::Raise),
            _ => None,
        }
    }
}

impl Word for ExcName {
    ghost use Rattle.conf_fields.specs.Words.{exception_of};

    ghost meaning = { exception_of };

    #[tactic(auto, unfolding(crate::specs::Words::exception_of))]
    fn of_word(word: &str) -> Option<Self> {
        match word {
            "OBJECT_NOT_EXIST" => Some(ExcName::ObjectNotExist),
            "TRANSIENT" => Some(ExcName::Transient),
            "OBJ_ADAPTER" => Some(ExcName::ObjAdapter),
            "BAD_OPERATION" => Some(ExcName::BadOperation),
            "MARSHAL" => Some(ExcName::Marshal),
            "UNKNOWN" => Some(ExcName::Unknown),
            _ => None,
        }
    }
}

impl Word for Policy {
    ghost use Rattle.conf_fields.specs.Words.{policy_of};

    ghost meaning = { policy_of };

    #[tactic(auto, unfolding(crate::specs::Words::policy_of))]
    fn of_word(word: &str) -> Option<Self> {
        match word {
            "ORB_CTRL_MODEL" => Some(Policy::OrbCtrl),
            "SINGLE_THREAD_MODEL" => Some(Policy::SingleThread),
            "MAIN_THREAD_MODEL" => Some(Policy::MainThread),
            "TRANSIENT" => Some(Policy::Transient),
            "PERSISTENT" => Some(Policy::Persistent),
            "UNIQUE_ID" => Some(Policy::UniqueId),
            "MULTIPLE_ID" => Some(Policy::MultipleId),
            "SYSTEM_ID" => Some(Policy::SystemId),
            "USER_ID" => Some(Policy::UserId),
            "NO_IMPLICIT_ACTIVATION" => Some(Policy::NoImplicit),
            "IMPLICIT_ACTIVATION" => Some(Policy::Implicit),
            "RETAIN" => Some(Policy::Retain),
            "NON_RETAIN" => Some(Policy::NonRetain),
            "USE_ACTIVE_OBJECT_MAP_ONLY" => Some(Policy::MapOnly),
            "USE_DEFAULT_SERVANT" => Some(Policy::DefaultServant),
            "USE_SERVANT_MANAGER" => Some(Policy::ServantManager),
            _ => None,
        }
    }
}
