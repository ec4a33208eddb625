//! Who a session is bound as. A plain enum.

/// Who a session is bound as (RFC 4513 4).
#[derive(Clone, Copy, Debug, PartialEq, Eq)]
pub enum Identity {
    /// Nobody in particular: it reads.
    Anonymous,
    /// The one manager: it also updates.
    Manager,
}
