// What posting lists are asked by. Plain data, made by plans.

use index_choice::{Key, TypeId};

/// A list of numbers that an index keeps.
pub enum Posting {
    /// The entries with an attribute of the type.
    Present(TypeId),
    /// The entries that may have several values of the type.
    Several(TypeId),
    /// The entries with a value of the type that has this key.
    Equal(TypeId, Key),
    /// The entries with a value of the type whose key has these three octets one after the other.
    Run(TypeId, [u8; 3]),
}

// Not derived: see "What the gate takes" in docs/ARCHITECTURE.md.
impl Drop for Posting {
    fn drop(self) {
        match self {
            Posting::Present(_) => {}
            Posting::Several(_) => {}
            Posting::Equal(_, _) => {}
            Posting::Run(_, _) => {}
        }
    }
}

/// The keys of a type's values from one to another, both included; none is no bound.
#[derive(Drop)]
pub struct Range {
    pub type_id: TypeId,
    pub from: Option<Key>,
    pub upto: Option<Key>,
}
