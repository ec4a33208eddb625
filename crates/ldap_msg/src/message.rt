//! The envelope and its operations.

use ldap_parts::{
    AddRequest, Control, ExtendedResponse, LdapResult, ModifyDnRequest, ModifyRequest,
    SearchResultEntry,
};
use ldap_requests::{BindRequest, CompareRequest, ExtendedRequest, SearchRequest};

/// LDAPMessage (RFC 4511 4.1.1).
#[derive(Debug, Drop)]
pub struct Message {
    /// messageID: 1 to 2147483647 in a request, 0 to 2147483647 in a response.
    pub id: u32,
    pub op: ProtocolOp,
    /// None and an empty list are one.
    pub controls: Vec<Control>,
}

/// What a message asks for or answers.
#[derive(Debug, Drop)]
pub enum ProtocolOp {
    Request(Request),
    Response(Response),
}

/// An operation that a client sends.
#[derive(Debug, Drop)]
pub enum Request {
    /// BindRequest (RFC 4511 4.2).
    Bind(BindRequest),
    /// UnbindRequest (RFC 4511 4.3).
    Unbind,
    /// SearchRequest (RFC 4511 4.5.1).
    Search(SearchRequest),
    /// ModifyRequest (RFC 4511 4.6).
    Modify(ModifyRequest),
    /// AddRequest (RFC 4511 4.7).
    Add(AddRequest),
    /// DelRequest (RFC 4511 4.8): a name as text.
    Delete(String),
    /// ModifyDNRequest (RFC 4511 4.9).
    ModifyDn(ModifyDnRequest),
    /// CompareRequest (RFC 4511 4.10).
    Compare(CompareRequest),
    /// AbandonRequest (RFC 4511 4.11): the messageID of what is abandoned, or any integer that eight octets hold.
    Abandon(i64),
    /// ExtendedRequest (RFC 4511 4.12).
    Extended(ExtendedRequest),
}

/// An operation that a server sends.
#[derive(Debug)]
pub enum Response {
    /// BindResponse (RFC 4511 4.2.2); its serverSaslCreds are ignored.
    Bind(LdapResult),
    /// SearchResultEntry (RFC 4511 4.5.2).
    SearchEntry(SearchResultEntry),
    /// SearchResultDone (RFC 4511 4.5.2).
    SearchDone(LdapResult),
    /// ModifyResponse (RFC 4511 4.6).
    Modify(LdapResult),
    /// AddResponse (RFC 4511 4.7).
    Add(LdapResult),
    /// DelResponse (RFC 4511 4.8).
    Delete(LdapResult),
    /// ModifyDNResponse (RFC 4511 4.9).
    ModifyDn(LdapResult),
    /// CompareResponse (RFC 4511 4.10).
    Compare(LdapResult),
    /// ExtendedResponse (RFC 4511 4.12), the Notice of Disconnection too (RFC 4511 4.4.1).
    Extended(ExtendedResponse),
}

// Not derived: see "What the gate takes" in docs/ARCHITECTURE.md.
impl Drop for Response {
    fn drop(self) {
        match self {
            Response::Bind(_) => {}
            Response::SearchEntry(_) => {}
            Response::SearchDone(_) => {}
            Response::Modify(_) => {}
            Response::Add(_) => {}
            Response::Delete(_) => {}
            Response::ModifyDn(_) => {}
            Response::Compare(_) => {}
            Response::Extended(_) => {}
        }
    }
}
