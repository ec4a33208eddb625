//! An extended request.

/// ExtendedRequest (RFC 4511 4.12).
#[derive(Debug)]
pub struct ExtendedRequest {
    /// requestName, an object identifier as text.
    pub request_name: String,
    pub request_value: Option<Vec<u8>>,
}

// Not derived: see "What the gate takes" in docs/ARCHITECTURE.md.
impl Drop for ExtendedRequest {
    fn drop(self) {
        let ExtendedRequest {
            request_name: _,
            request_value: _,
        } = self;
    }
}
