//! Says which operation a request is.

ghost use Rattle.std.specs.Prelude.{◌≡◌};
ghost use Rattle.ldap_msg.specs.View.{request_view};
ghost use Rattle.ldap_msg.specs.Kinds.{request_kind};

use crate::message::Request;

/// Which operation a request is (RFC 4511 4.2 to 4.12), without its fields.
#[derive(Clone, Copy, Debug, PartialEq, Eq)]
pub enum RequestKind {
    Bind,
    Unbind,
    Search,
    Modify,
    Add,
    Delete,
    ModifyDn,
    Compare,
    Abandon,
    Extended,
}

impl Request {
    /// Which operation it is.
    pub fn kind(&self) -> RequestKind
        ensures { result ≡ request_kind (request_view self.now) }
    {
        match self {
            Request::Bind(_) => RequestKind::Bind,
            Request::Unbind => RequestKind::Unbind,
            Request::Search(_) => RequestKind::Search,
            Request::Modify(_) => RequestKind::Modify,
            Request::Add(_) => RequestKind::Add,
            Request::Delete(_) => RequestKind::Delete,
            Request::ModifyDn(_) => RequestKind::ModifyDn,
            Request::Compare(_) => RequestKind::Compare,
            Request::Abandon(_) => RequestKind::Abandon,
            Request::Extended(_) => RequestKind::Extended,
        }
    }
}
