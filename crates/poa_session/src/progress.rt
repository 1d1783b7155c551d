//! How the reading of an input goes on.
use poa_base::SessionEnd;

/// How the reading of an input goes on.
#[derive(Clone, Copy, Drop)]
pub(crate) enum Progress {
    /// More may stand whole.
    On,
    /// Nothing more does, and so many bytes are left over.
    Waits { have: u64 },
    /// The session may end so.
    Ends(SessionEnd),
}
