//! An add request.

use crate::attribute::Attribute;

/// AddRequest (RFC 4511 4.7).
#[derive(Debug)]
pub struct AddRequest {
    /// entry, a name as text.
    pub entry: String,
    /// Each has a value at least.
    pub attributes: Vec<Attribute>,
}

// Not derived: see "What the gate takes" in docs/ARCHITECTURE.md.
impl Drop for AddRequest {
    fn drop(self) {
        let AddRequest {
            entry: _,
            attributes: _,
        } = self;
    }
}
