//! Where a setting comes from.
use crate::setting::Setting;
use crate::since::Since;

/// What was set by a command, and since when it is.
#[derive(Drop)]
pub struct Origin {
    pub setting: Setting,
    pub since: Since,
}
