//! A configuration, with its names turned into numbers.
use crate::bytes::Bytes;
use crate::endpoint::Endpoint;
use crate::exception::SysExc;
use crate::items::Items;
use crate::manager::ManagerState;
use crate::name::Name;
use crate::oid::Oid;
use crate::path::Path;
use crate::policy::PolicySet;
use crate::servant::State;
use crate::templates::Templates;

/// What a server is configured with. Manager 0 is `root`, and the configured managers follow from 1
/// on; a servant's number is its place in `servants`, from 0 on.
#[derive(Drop)]
pub struct Config {
    /// The number of the run.
    pub run: u32,
    pub host: Bytes,
    pub port: u16,
    pub admin_port: u16,
    /// How long, in milliseconds, a started server holds its door.
    pub gate_ms: u32,
    /// The state in which the manager `root` starts.
    pub root: ManagerState,
    pub managers: Items<ManagerConf>,
    pub servants: Items<ServantConf>,
    pub adapters: Templates,
    pub objects: Items<ObjectConf>,
    pub forwards: Items<ForwardConf>,
}

/// A manager and the state in which it starts.
#[derive(Drop)]
pub struct ManagerConf {
    pub name: Name,
    pub start: ManagerState,
}

/// A servant, with its kind and the state in which it starts.
#[derive(Drop)]
pub struct ServantConf {
    pub name: Name,
    pub state: State,
}

/// The template of an adapter.
#[derive(Drop)]
pub struct AdapterConf {
    pub path: Path,
    pub policies: PolicySet,
    /// The number of its manager.
    pub manager: u32,
    /// Whether it is created when the server starts.
    pub boot: bool,
    /// What its adapter activator does; none where it has no activator.
    pub children: Option<Children>,
    /// The number of its default servant.
    pub preset: Option<u32>,
    /// The rules of its servant manager, of which the first that matches counts.
    pub rules: Items<RuleConf>,
    /// The tag that its persistent references carry; 0 where they carry none.
    pub tag: u16,
    /// Whether it still serves persistent references without a tag.
    pub old_keys: bool,
}

/// What an adapter activator does about a missing child.
#[derive(Clone, Copy, Drop)]
pub enum Children {
    Create,
    Refuse,
    Raise,
}

/// The kinds of servants.
#[derive(Clone, Copy, Drop)]
pub enum Kind {
    Register,
    Log,
    Echo,
    Fault,
}

/// A rule of a servant manager. Without an id it matches every id.
#[derive(Drop)]
pub struct RuleConf {
    pub oid: Option<Oid>,
    pub gives: Gives,
}

/// What a rule gives.
#[derive(Drop)]
pub enum Gives {
    /// A new servant of this kind.
    Fresh(Kind),
    /// The configured servant of this number.
    Servant(u32),
    Forward(Endpoint),
    Raise(SysExc),
}

/// An object that is active from the start. Without an id it gets a system-made one.
#[derive(Drop)]
pub struct ObjectConf {
    pub adapter: Path,
    pub oid: Option<Oid>,
    pub servant: u32,
}

/// An entry of the endpoint table.
#[derive(Drop)]
pub struct ForwardConf {
    pub path: Path,
    pub endpoint: Endpoint,
}
