//! Writes the content of a response.

ghost use Rattle.std.specs.Prelude.{◌≡◌, ◌%◌, ◌^◌, ◌<◌, ◌≤◌, length, IfOk, IsErrOf};
ghost use Rattle.ldap_msg.specs.View.{response_view};
ghost use Rattle.ldap_msg.specs.Grammar.{response_octet};
ghost use Rattle.ldap_msg.specs.Written.{response_content};

use crate::message::Response;
use ldap_parts::{entry_content, extended_content, result_content};
use ldap_requests::WriteError;
use std::alloc::Global;

/// The content of a response.
pub fn response_content(alloc: Global, response: &Response) -> Result<Vec<u8>, WriteError>
    ensures ok { IfOk result (λ v. v.items ≡ response_content (response_view response.now)) }
    ensures too_long { IsErrOf result WriteError.TooLong
        → 2 ^ 32 ≤ length (response_content (response_view response.now)) }
{
    match response {
        Response::Bind(bind) => result_content(alloc, bind),
        Response::SearchEntry(entry) => entry_content(alloc, entry),
        Response::SearchDone(done) => result_content(alloc, done),
        Response::Modify(modify) => result_content(alloc, modify),
        Response::Add(add) => result_content(alloc, add),
        Response::Delete(delete) => result_content(alloc, delete),
        Response::ModifyDn(modify_dn) => result_content(alloc, modify_dn),
        Response::Compare(compare) => result_content(alloc, compare),
        Response::Extended(extended) => extended_content(alloc, extended),
    }
}

/// The first octet of a response.
pub fn response_octet(response: &Response) -> u8
    ensures octet { result ≡ response_octet (response_view response.now) }
    ensures low_tag { result % 32 < 31 }
{
    match response {
        Response::Bind(_) => 0x61,
        Response::SearchEntry(_) => 0x64,
        Response::SearchDone(_) => 0x65,
        Response::Modify(_) => 0x67,
        Response::Add(_) => 0x69,
        Response::Delete(_) => 0x6b,
        Response::ModifyDn(_) => 0x6d,
        Response::Compare(_) => 0x6f,
        Response::Extended(_) => 0x78,
    }
}
