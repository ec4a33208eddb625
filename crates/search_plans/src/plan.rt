// Plans: the sets of numbers that are made of posting lists and a scope. Plain data.

use dir_index::{Posting, Range};

/// A set of numbers of entries. It never is made as a list: a number is asked for, or candidates are drawn from the
/// posting lists.
pub enum Plan {
    /// No number.
    Empty,
    /// Every number of the scope.
    Scope,
    /// The numbers of a posting list.
    Posting(Posting),
    /// The numbers of the posting lists of the keys in a range.
    Range(Range),
    /// The numbers of any of the plans.
    Union(Vec<Plan>),
    /// The numbers of all of the plans.
    Inter(Vec<Plan>),
    /// The numbers of the first plan that are not of the second.
    Minus(Box<Plan>, Box<Plan>),
}

// Not derived: see "What the gate takes" in docs/ARCHITECTURE.md.
impl Drop for Plan {
    fn drop(self) {
        match self {
            Plan::Empty => {}
            Plan::Scope => {}
            Plan::Posting(_) => {}
            Plan::Range(_) => {}
            Plan::Union(_) => {}
            Plan::Inter(_) => {}
            Plan::Minus(_, _) => {}
        }
    }
}

/// Two plans round a set: what is surely in it, and what may be.
#[derive(Drop)]
pub struct Sided {
    pub must: Plan,
    pub may: Plan,
}
