//! Writes the content of a request.

ghost use Rattle.std.specs.Prelude.{◌≡◌, ◌%◌, ◌^◌, ◌<◌, ◌≤◌, length, IfOk, IsErrOf};
ghost use Rattle.ldap_msg.specs.View.{request_view};
ghost use Rattle.ldap_msg.specs.Grammar.{request_octet};
ghost use Rattle.ldap_msg.specs.Written.{request_content};

use crate::kinds::RequestKind;
use crate::message::Request;
use ldap_parts::{add_content, delete_content, modify_content, modify_dn_content};
use ldap_requests::{
    WriteError, abandon_content, bind_content, compare_content, extended_request_content,
    search_content,
};
use std::alloc::Global;

/// The content of a request.
pub fn request_content(alloc: Global, request: &Request) -> Result<Vec<u8>, WriteError>
    ensures ok { IfOk result (λ v. v.items ≡ request_content (request_view request.now)) }
    ensures too_long { IsErrOf result WriteError.TooLong
        → 2 ^ 32 ≤ length (request_content (request_view request.now)) }
{
    match request {
        Request::Bind(bind) => bind_content(alloc, bind),
        Request::Unbind => Ok(Vec::new(alloc)),
        Request::Search(search) => search_content(alloc, search),
        Request::Modify(modify) => modify_content(alloc, modify),
        Request::Add(add) => add_content(alloc, add),
        Request::Delete(delete) => delete_content(alloc, delete),
        Request::ModifyDn(modify_dn) => modify_dn_content(alloc, modify_dn),
        Request::Compare(compare) => compare_content(alloc, compare),
        Request::Abandon(abandon) => abandon_content(alloc, abandon),
        Request::Extended(extended_request) => extended_request_content(alloc, extended_request),
    }
}

/// The first octet of a request.
pub fn request_octet(request: &Request) -> u8
    ensures octet { result ≡ request_octet (request_view request.now) }
    ensures low_tag { result % 32 < 31 }
{
    match request.kind() {
        RequestKind::Bind => 0x60,
        RequestKind::Unbind => 0x42,
        RequestKind::Search => 0x63,
        RequestKind::Modify => 0x66,
        RequestKind::Add => 0x68,
        RequestKind::Delete => 0x4a,
        RequestKind::ModifyDn => 0x6c,
        RequestKind::Compare => 0x6e,
        RequestKind::Abandon => 0x50,
        RequestKind::Extended => 0x77,
    }
}
