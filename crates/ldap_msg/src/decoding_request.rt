//! Reads a request by its first octet.

ghost use Rattle.std.specs.Prelude.{◌≡◌, IfOk, IfErr};
ghost use Rattle.std.specs.Bool.{OnTrue, OnFalse};
ghost use Rattle.ldap_requests.specs.Limits.{FilterStandsAt, IsLimitFault};
ghost use Rattle.ldap_msg.specs.Messages.{RequestValue, ResponseValue};
ghost use Rattle.ldap_msg.specs.View.{request_view};
ghost use Rattle.ldap_msg.specs.Grammar.{request_octet, response_octet, IsRequestContent};
ghost use Rattle.ldap_msg.specs.Limits.{IsRequestWithin};

use crate::message::Request;
use ldap_parts::{add_of, delete_of, modify_dn_of, modify_of};
use ldap_requests::{
    MsgFault, abandon_of, bind_of, compare_of, extended_request_of, search_of, unbind_of,
};
use std::alloc::Global;

/// Whether an operation of this first octet is a request, if it is any.
pub fn is_request(first: u8) -> bool
    ensures yes { OnTrue result ((r : ResponseValue) → response_octet r ≡ first → ⊥) }
    ensures no { OnFalse result ((r : RequestValue) → request_octet r ≡ first → ⊥) }
{
    match first {
        0x60 | 0x42 | 0x63 | 0x66 | 0x68 | 0x4a | 0x6c | 0x6e | 0x50 | 0x77 => true,
        _ => false,
    }
}

/// The request of this first octet whose content this is.
pub fn request_of(alloc: Global, first: u8, content: &[u8]) -> Result<Request, MsgFault>
    ensures found { IfOk result (λ r. (request_octet (request_view r) ≡ first)
        × IsRequestContent (request_view r) content.now) }
    ensures within { IfOk result (λ r. IsRequestWithin (request_view r)) }
    ensures fault { IfErr result (λ e. IsLimitFault e ((r : RequestValue)
        × (request_octet r ≡ first) × IsRequestContent r content.now) (λ place. (first ≡ 99)
        × FilterStandsAt content.now place)) }
{
    match first {
        0x60 => Ok(Request::Bind(bind_of(alloc, content)?)),
        0x42 => {
            unbind_of(content)?;
            Ok(Request::Unbind)
        }
        0x63 => Ok(Request::Search(search_of(alloc, content)?)),
        0x66 => Ok(Request::Modify(modify_of(alloc, content)?)),
        0x68 => Ok(Request::Add(add_of(alloc, content)?)),
        0x4a => Ok(Request::Delete(delete_of(alloc, content)?)),
        0x6c => Ok(Request::ModifyDn(modify_dn_of(alloc, content)?)),
        0x6e => Ok(Request::Compare(compare_of(alloc, content)?)),
        0x50 => Ok(Request::Abandon(abandon_of(content)?)),
        0x77 => Ok(Request::Extended(extended_request_of(alloc, content)?)),
        _ => Err(MsgFault::NotAMessage),
    }
}
