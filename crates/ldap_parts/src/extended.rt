//! An extended response.

use crate::result::LdapResult;

/// ExtendedResponse (RFC 4511 4.12).
#[derive(Debug)]
pub struct ExtendedResponse {
    pub result: LdapResult,
    /// responseName, an object identifier as text.
    pub response_name: Option<String>,
    pub response_value: Option<Vec<u8>>,
}

// Not derived: see "What the gate takes" in docs/ARCHITECTURE.md.
impl Drop for ExtendedResponse {
    fn drop(self) {
        let ExtendedResponse {
            result: _,
            response_name: _,
            response_value: _,
        } = self;
    }
}
