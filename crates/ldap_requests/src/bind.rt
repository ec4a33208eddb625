//! A bind request.

/// BindRequest (RFC 4511 4.2).
#[derive(Debug)]
pub struct BindRequest {
    /// Any integer that eight octets hold, so that a version other than 3 can be answered.
    pub version: i64,
    /// name, a name as text; empty for an anonymous bind.
    pub name: String,
    pub authentication: AuthenticationChoice,
}

// Not derived: see "What the gate takes" in docs/ARCHITECTURE.md.
impl Drop for BindRequest {
    fn drop(self) {
        let BindRequest {
            version: _,
            name: _,
            authentication: _,
        } = self;
    }
}

/// AuthenticationChoice (RFC 4511 4.2).
#[derive(Debug)]
pub enum AuthenticationChoice {
    /// A password.
    Simple(Vec<u8>),
    Sasl(SaslCredentials),
}

// Not derived: see "What the gate takes" in docs/ARCHITECTURE.md.
impl Drop for AuthenticationChoice {
    fn drop(self) {
        match self {
            AuthenticationChoice::Simple(_) => {}
            AuthenticationChoice::Sasl(_) => {}
        }
    }
}

/// SaslCredentials (RFC 4511 4.2).
#[derive(Debug, Drop)]
pub struct SaslCredentials {
    pub mechanism: String,
    pub credentials: Option<Vec<u8>>,
}
