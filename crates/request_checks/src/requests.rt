//! Sorts requests by what they ask for: their kind, their response's kind, and the update.
ghost use Rattle.std.specs.Prelude.{◌≡◌, IfOk, IfErr, is_some};
ghost use Rattle.ldap_msg.specs.View.{request_view, extended_request_view};
ghost use Rattle.ldap_msg.specs.Messages.{extended_request};
ghost use Rattle.ldap_op.specs.View.{update_view};
ghost use Rattle.request_checks.specs.Requests.{is_noop, update_of, is_read, kind_of, answering_of};

use crate::controls::Kind;
use ldap_msg::{ExtendedRequest, Request, RequestKind};
use ldap_op::Update;

/// The extended request for an update that changes nothing and takes a number.
const NOOP_REQUEST: &str = "2.25.20120103";

/// The kind of the response that answers a request (RFC 4511 4.2.2 to 4.12).
#[derive(Clone, Copy, Debug, PartialEq, Eq)]
pub enum Answering {
    Bind,
    /// A SearchResultDone.
    Search,
    Modify,
    Add,
    Delete,
    ModifyDn,
    Compare,
    Extended,
}

/// Whether an extended request is for the update that changes nothing.
fn is_noop(request: &ExtendedRequest) -> bool
    ensures { result ≡ is_noop (extended_request_view request.now) }
{
    request.request_name.as_str() == NOOP_REQUEST
}

/// Whether a request is an update.
pub fn is_update(request: &Request) -> bool
    ensures { result ≡ is_some (update_of (request_view request.now)) }
{
    match request {
        Request::Add(_) | Request::Modify(_) | Request::Delete(_) | Request::ModifyDn(_) => true,
        Request::Extended(extended) => is_noop(extended),
        Request::Bind(_)
        | Request::Unbind
        | Request::Search(_)
        | Request::Compare(_)
        | Request::Abandon(_) => false,
    }
}

/// Whether a request of this kind reads.
fn is_read(kind: RequestKind) -> bool
    ensures { result ≡ is_read kind }
{
    matches!(kind, RequestKind::Search | RequestKind::Compare)
}

/// The kind of a request to its controls.
pub fn kind_of(request: &Request) -> Kind
    ensures { result ≡ kind_of (request_view request.now) }
{
    if is_update(request) {
        Kind::Update
    } else if is_read(request.kind()) {
        Kind::Read
    } else {
        Kind::Other
    }
}

/// The kind of the response that answers a request; of one without a response nothing.
pub fn answering_of(request: &Request) -> Answering
    ensures { result ≡ answering_of (request_view request.now) }
{
    match request.kind() {
        RequestKind::Bind => Answering::Bind,
        RequestKind::Search => Answering::Search,
        RequestKind::Modify => Answering::Modify,
        RequestKind::Add => Answering::Add,
        RequestKind::Delete => Answering::Delete,
        RequestKind::ModifyDn => Answering::ModifyDn,
        RequestKind::Compare => Answering::Compare,
        RequestKind::Unbind | RequestKind::Abandon | RequestKind::Extended => Answering::Extended,
    }
}

/// The update that an extended request is, or the request as it was.
fn noop_in(request: ExtendedRequest) -> Result<Update, Request>
    ensures update { IfOk result (λ u. update_of (extended_request (extended_request_view request)) ≡
        Some (update_view u)) }
    ensures same { IfErr result (λ r. request_view r ≡ extended_request (extended_request_view request)) }
    ensures other { IfErr result (λ r. update_of (request_view r) ≡ None) }
{
    if is_noop(&request) {
        Ok(Update::Noop)
    } else {
        Err(Request::Extended(request))
    }
}

/// The update that a request is, or the request as it was.
pub fn update_in(request: Request) -> Result<Update, Request>
    ensures update { IfOk result (λ u. update_of (request_view request) ≡ Some (update_view u)) }
    ensures same { IfErr result (λ r. request_view r ≡ request_view request) }
    ensures other { IfErr result (λ r. update_of (request_view r) ≡ None) }
{
    match request {
        Request::Add(add) => Ok(Update::Add(add)),
        Request::Modify(modify) => Ok(Update::Modify(modify)),
        Request::Delete(name) => Ok(Update::Delete(name)),
        Request::ModifyDn(modify_dn) => Ok(Update::ModifyDn(modify_dn)),
        Request::Extended(extended) => noop_in(extended),
        Request::Bind(bind) => Err(Request::Bind(bind)),
        Request::Unbind => Err(Request::Unbind),
        Request::Search(search) => Err(Request::Search(search)),
        Request::Compare(compare) => Err(Request::Compare(compare)),
        Request::Abandon(id) => Err(Request::Abandon(id)),
    }
}
