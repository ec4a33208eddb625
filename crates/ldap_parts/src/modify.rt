//! A modify request.

use crate::attribute::PartialAttribute;

/// ModifyRequest (RFC 4511 4.6).
#[derive(Debug)]
pub struct ModifyRequest {
    /// object, a name as text.
    pub object: String,
    /// In the order in which they are made.
    pub changes: Vec<Change>,
}

// Not derived: see "What the gate takes" in docs/ARCHITECTURE.md.
impl Drop for ModifyRequest {
    fn drop(self) {
        let ModifyRequest {
            object: _,
            changes: _,
        } = self;
    }
}

/// One change of a modify.
#[derive(Debug)]
pub struct Change {
    pub operation: ModifyOperation,
    pub modification: PartialAttribute,
}

// Not derived: see "What the gate takes" in docs/ARCHITECTURE.md.
impl Drop for Change {
    fn drop(self) {
        let Change {
            operation: _,
            modification: _,
        } = self;
    }
}

/// What a change does with its values, 0 to 3 on the wire.
#[derive(Clone, Copy, Debug, PartialEq, Eq)]
pub enum ModifyOperation {
    /// 0
    Add,
    /// 1
    Delete,
    /// 2
    Replace,
    /// 3 (RFC 4525).
    Increment,
}
