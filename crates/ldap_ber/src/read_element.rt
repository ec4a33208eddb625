//! An element as it is read.

/// An element, seen in the octets that it was read from (X.690 8.1).
#[derive(Clone, Copy, Debug)]
pub struct Element<'a> {
    /// The identifier octet: class, form and a tag number below 31.
    pub first: u8,
    /// The content, without the octets of the length.
    pub content: &'a [u8],
}
