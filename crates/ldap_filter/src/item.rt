//! What items of several fields say.

/// SubstringFilter (RFC 4511 4.5.1.7.2): a value of the described attribute has these parts in order. What is read has
/// a part at least.
#[derive(Clone, Debug, PartialEq, Eq)]
pub struct SubstringFilter {
    pub description: String,
    /// At the start of the value.
    pub initial: Option<Vec<u8>>,
    /// Anywhere between, in this order.
    pub any: Vec<Vec<u8>>,
    /// `final`: at the end of the value.
    pub last: Option<Vec<u8>>,
}

// Not derived: see "What the gate takes" in docs/ARCHITECTURE.md.
impl Drop for SubstringFilter {
    fn drop(self) {
        let SubstringFilter {
            description: _,
            initial: _,
            any: _,
            last: _,
        } = self;
    }
}

/// MatchingRuleAssertion (RFC 4511 4.5.1.7.7): a rule by its name or identifier, a description, or both, and a value.
#[derive(Clone, Debug, PartialEq, Eq)]
pub struct MatchingRuleAssertion {
    pub matching_rule: Option<String>,
    /// `type`.
    pub description: Option<String>,
    pub match_value: Vec<u8>,
    pub dn_attributes: bool,
}

// Not derived: see "What the gate takes" in docs/ARCHITECTURE.md.
impl Drop for MatchingRuleAssertion {
    fn drop(self) {
        let MatchingRuleAssertion {
            matching_rule: _,
            description: _,
            match_value: _,
            dn_attributes: _,
        } = self;
    }
}
