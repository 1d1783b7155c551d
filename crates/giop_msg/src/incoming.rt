//! What a message asks of a server.
use poa_base::Call;

/// What a message asks.
#[derive(Drop)]
pub enum Incoming {
    /// A Request or a LocateRequest.
    Call(Call),
    /// A CancelRequest, with the id of the request.
    Cancel { id: u32 },
    /// A CloseConnection.
    Closing,
}
