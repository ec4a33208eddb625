//! Why octets are no message.

ghost use Rattle.std.specs.Prelude.{◌≡◌};
ghost use Rattle.ldap_ber.specs.declared.message_fault.MsgFault.TheVariants.{NoMemory};

use std::alloc::{AllocError, AllocFailed};
use thiserror::Error;

/// Why octets are not read as a message or a filter.
#[derive(Clone, Copy, Debug, PartialEq, Eq, Error)]
pub enum MsgFault {
    /// A message of more than 4194304 octets.
    #[error("E7: a message of more than 4194304 octets")]
    TooLarge,
    /// The octets are not in the grammar of RFC 4511.
    #[error("E8: no message")]
    NotAMessage,
    /// A filter more than 128 deep.
    #[error("E9: a filter more than 128 deep")]
    TooDeep,
    /// A filter of more than 512 items.
    #[error("E10: a filter of more than 512 items")]
    TooManyItems,
    /// Memory ran out.
    #[error("out of memory")]
    NoMemory,
}

impl From<AllocError> for MsgFault {
    ghost from_gives = { λ _ e. e ≡ NoMemory };

    fn from(_e: AllocError) -> MsgFault {
        MsgFault::NoMemory
    }
}

impl<T: Drop> From<AllocFailed<T>> for MsgFault {
    ghost from_gives = { λ _ e. e ≡ NoMemory };

    fn from(_e: AllocFailed<T>) -> MsgFault {
        MsgFault::NoMemory
    }
}
