//! Why a stream goes no further.

ghost use Rattle.std.specs.Prelude.{◌≡◌};
ghost use Rattle.ldap_framer.specs.declared.fault.FrameFault.TheVariants.{NoMemory};

use ldap_msg::MsgFault;
use std::alloc::AllocError;
use thiserror::Error;

/// Why a piece of a stream is not taken.
#[derive(Clone, Copy, Debug, PartialEq, Eq, Error)]
pub enum FrameFault {
    /// E7 to E10: where the next message is to begin, the stream stops.
    #[error("{0}")]
    Refused(MsgFault),
    /// The stream was stopped before.
    #[error("the stream was stopped")]
    Failed,
    /// Memory ran out; nothing is changed.
    #[error("out of memory")]
    NoMemory,
}

impl From<AllocError> for FrameFault {
    ghost from_gives = { λ _ e. e ≡ NoMemory };

    fn from(_e: AllocError) -> FrameFault {
        FrameFault::NoMemory
    }
}
