//! A compare request.

/// CompareRequest (RFC 4511 4.10).
#[derive(Debug)]
pub struct CompareRequest {
    /// entry, a name as text.
    pub entry: String,
    pub ava: AttributeValueAssertion,
}

// Not derived: see "What the gate takes" in docs/ARCHITECTURE.md.
impl Drop for CompareRequest {
    fn drop(self) {
        let CompareRequest { entry: _, ava: _ } = self;
    }
}

/// AttributeValueAssertion (RFC 4511 4.1.6).
#[derive(Debug)]
pub struct AttributeValueAssertion {
    /// attributeDesc, a description as text.
    pub attribute_desc: String,
    pub assertion_value: Vec<u8>,
}

// Not derived: see "What the gate takes" in docs/ARCHITECTURE.md.
impl Drop for AttributeValueAssertion {
    fn drop(self) {
        let AttributeValueAssertion {
            attribute_desc: _,
            assertion_value: _,
        } = self;
    }
}
