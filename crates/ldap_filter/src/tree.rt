//! The type of filters.

use crate::item::{MatchingRuleAssertion, SubstringFilter};

/// A filter (RFC 4511 4.5.1.7): an item, or filters under `and`, `or` and `not`.
#[derive(Clone, Debug, PartialEq, Eq)]
pub enum Filter {
    /// True where each filter is; an empty one is true (RFC 4526).
    And(Vec<Filter>),
    /// True where some filter is; an empty one is false (RFC 4526).
    Or(Vec<Filter>),
    /// True where the filter is false.
    Not(Box<Filter>),
    /// `equalityMatch`: a value of the described attribute equals the assertion.
    Equal {
        description: String,
        assertion: Vec<u8>,
    },
    /// `substrings`: a value of the described attribute has these parts.
    Substrings(SubstringFilter),
    /// `greaterOrEqual`: a value of the described attribute is not less than the assertion.
    AtLeast {
        description: String,
        assertion: Vec<u8>,
    },
    /// `lessOrEqual`: a value of the described attribute is less than the assertion or equals it.
    AtMost {
        description: String,
        assertion: Vec<u8>,
    },
    /// `present`: the described attribute is there.
    Present(String),
    /// `approxMatch`: a value of the described attribute is approximately the assertion.
    Approx {
        description: String,
        assertion: Vec<u8>,
    },
    /// `extensibleMatch`: a value satisfies a rule that the filter names.
    Extensible(MatchingRuleAssertion),
}

// Not derived: see "What the gate takes" in docs/ARCHITECTURE.md.
impl Drop for Filter {
    fn drop(self) {
        match self {
            Filter::And(_) => {}
            Filter::Or(_) => {}
            Filter::Not(_) => {}
            Filter::Equal {
                description: _,
                assertion: _,
            } => {}
            Filter::Substrings(_) => {}
            Filter::AtLeast {
                description: _,
                assertion: _,
            } => {}
            Filter::AtMost {
                description: _,
                assertion: _,
            } => {}
            Filter::Present(_) => {}
            Filter::Approx {
                description: _,
                assertion: _,
            } => {}
            Filter::Extensible(_) => {}
        }
    }
}
