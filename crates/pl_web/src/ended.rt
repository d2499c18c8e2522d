//! Why a request has no reply from the rows.

/// Why nothing is answered from the rows.
#[derive(Clone, Copy, Debug, PartialEq, Eq)]
pub enum Ended {
    /// The peer ended within its request.
    Gone,
    /// A read of the connection failed.
    Lost,
    /// A call of the keeper failed.
    Store,
    /// Memory was wanting.
    Memory,
}
