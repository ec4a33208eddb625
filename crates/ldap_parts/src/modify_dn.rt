//! A modifyDN request.

/// ModifyDNRequest (RFC 4511 4.9).
#[derive(Debug)]
pub struct ModifyDnRequest {
    /// entry, a name as text.
    pub entry: String,
    /// newrdn, a relative name as text.
    pub newrdn: String,
    pub deleteoldrdn: bool,
    /// newSuperior, a name as text.
    pub new_superior: Option<String>,
}

// Not derived: see "What the gate takes" in docs/ARCHITECTURE.md.
impl Drop for ModifyDnRequest {
    fn drop(self) {
        let ModifyDnRequest {
            entry: _,
            newrdn: _,
            deleteoldrdn: _,
            new_superior: _,
        } = self;
    }
}
