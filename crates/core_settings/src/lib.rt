//! What the administrator's commands have set, as plain lists: the states of the managers, the default
//! servants and the endpoints of paths. They say what the whole history says, and take each command as it
//! is done.
#![tactic(auto)]

mod endpoints;
mod managers;
mod presets;
mod settings;
mod states;

pub use endpoints::{EndpointRow, Endpoints, endpoint_of, forward_of};
pub use managers::Managers;
pub use presets::{PresetRow, Presets, preset_of};
pub use settings::{Settings, apply, opening};
pub use states::{manager_state, order_for};
