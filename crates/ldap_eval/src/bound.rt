// Bound filters, for evaluation and for plans. Plain data.

use crate::matching::MatchTest;
use dir_entry::{Test, TypeId};

/// A test on the attributes of one type, and not of its subtypes.
pub struct Leaf {
    pub type_id: TypeId,
    pub test: Test,
}

// Not derived: see "What the gate takes" in docs/ARCHITECTURE.md.
impl Drop for Leaf {
    fn drop(self) {
        let Leaf {
            type_id: _,
            test: _,
        } = self;
    }
}

/// A test that names a rule, on the attributes of one type, or on the pairs of that type in the entry's name. No index
/// tells where it is true.
pub struct Match {
    pub type_id: TypeId,
    pub test: MatchTest,
    pub in_name: bool,
}

// Not derived: see "What the gate takes" in docs/ARCHITECTURE.md.
impl Drop for Match {
    fn drop(self) {
        let Match {
            type_id: _,
            test: _,
            in_name: _,
        } = self;
    }
}

/// A filter with its assertions made ready under one schema: an item is an `or` of leaves, one for each type under its
/// type, each with the test that the item makes of that type; an item that names a rule is an `or` of matches.
pub enum BoundFilter {
    And(Vec<BoundFilter>),
    Or(Vec<BoundFilter>),
    Not(Box<BoundFilter>),
    /// An item that is Undefined on every entry.
    Undefined,
    Leaf(Leaf),
    Match(Match),
}

// Not derived: see "What the gate takes" in docs/ARCHITECTURE.md.
impl Drop for BoundFilter {
    fn drop(self) {
        match self {
            BoundFilter::And(_) => {}
            BoundFilter::Or(_) => {}
            BoundFilter::Not(_) => {}
            BoundFilter::Undefined => {}
            BoundFilter::Leaf(_) => {}
            BoundFilter::Match(_) => {}
        }
    }
}
