//! An entry that a search found.

use crate::attribute::PartialAttribute;

/// SearchResultEntry (RFC 4511 4.5.2).
#[derive(Debug)]
pub struct SearchResultEntry {
    /// objectName, a name as text.
    pub object_name: String,
    pub attributes: Vec<PartialAttribute>,
}

// Not derived: see "What the gate takes" in docs/ARCHITECTURE.md.
impl Drop for SearchResultEntry {
    fn drop(self) {
        let SearchResultEntry {
            object_name: _,
            attributes: _,
        } = self;
    }
}
