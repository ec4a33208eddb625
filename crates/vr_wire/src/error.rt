//! Why octets are none of a cluster's frames, or a message has none.

ghost use Rattle.std.specs.Prelude.{◌≡◌};

use std::alloc::{AllocError, AllocFailed};
use thiserror::Error;

/// A refusal of the wire between replicas.
#[derive(Clone, Copy, Debug, PartialEq, Eq, Error)]
pub enum WireError {
    /// The octets are no frame; or the message has none: its frame would be over the limit, or a number or an update of
    /// it has no octets.
    #[error("E20: no frame")]
    BadFrame,
    /// The octets are a frame of another cluster.
    #[error("E24: a frame of another cluster")]
    ForeignFrame,
    /// Memory ran out.
    #[error("out of memory")]
    NoMemory,
}

impl From<AllocError> for WireError {
    ghost use Rattle.vr_wire.specs.declared.error.WireError.TheVariants.{NoMemory};

    ghost from_gives = { λ _ e. e ≡ NoMemory };

    fn from(_: AllocError) -> WireError {
        WireError::NoMemory
    }
}

impl<T: Drop> From<AllocFailed<T>> for WireError {
    ghost use Rattle.vr_wire.specs.declared.error.WireError.TheVariants.{NoMemory};

    ghost from_gives = { λ _ e. e ≡ NoMemory };

    fn from(_: AllocFailed<T>) -> WireError {
        WireError::NoMemory
    }
}
