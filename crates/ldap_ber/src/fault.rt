//! Why octets are no element, and why an element is not written.

use thiserror::Error;

/// What stands in the place of an element: the first fault from left to right (RFC 4511 5.1).
#[derive(Clone, Copy, Debug, PartialEq, Eq, Error)]
pub enum BerFault {
    /// The tag number takes more than one octet (X.690 8.1.2.4).
    #[error("E4: the tag number takes more than one octet")]
    HighTag,
    /// The octets end before the element does.
    #[error("E1: the element is cut short")]
    Short,
    /// The length is of the indefinite form (X.690 8.1.3.6).
    #[error("E2: the length is indefinite")]
    Indefinite,
    /// The length takes more than four octets.
    #[error("E3: the length takes more than four octets")]
    LengthTooLong,
}

/// The content is no integer of at most eight octets in its shortest form (X.690 8.3).
#[derive(Clone, Copy, Debug, PartialEq, Eq, Error)]
#[error("E5: no integer of at most eight octets in its shortest form")]
pub struct BadInteger;

/// The content is not one octet (X.690 8.2).
#[derive(Clone, Copy, Debug, PartialEq, Eq, Error)]
#[error("E6: no boolean")]
pub struct BadBoolean;

/// Why an element is not written.
#[derive(Clone, Copy, Debug, PartialEq, Eq, Error)]
pub enum WriteError {
    /// The content is longer than 4294967295 octets, the greatest length that is written.
    #[error("E3: the content is longer than a length can say")]
    TooLong,
    /// Memory ran out.
    #[error("out of memory")]
    NoMemory,
}
