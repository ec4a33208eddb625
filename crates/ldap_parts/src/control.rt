//! A control.

/// Control (RFC 4511 4.1.11).
#[derive(Debug)]
pub struct Control {
    /// controlType, an object identifier as text.
    pub control_type: String,
    pub criticality: bool,
    pub value: Option<Vec<u8>>,
}

// Not derived: see "What the gate takes" in docs/ARCHITECTURE.md.
impl Drop for Control {
    fn drop(self) {
        let Control {
            control_type: _,
            criticality: _,
            value: _,
        } = self;
    }
}
