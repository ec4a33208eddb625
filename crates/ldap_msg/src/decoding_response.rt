//! Reads a response by its first octet.

ghost use Rattle.std.specs.Prelude.{◌≡◌, IfOk, IfErr};
ghost use Rattle.ldap_requests.specs.ldap_ber.Faults.{IsPlainFault};
ghost use Rattle.ldap_msg.specs.Messages.{ResponseValue};
ghost use Rattle.ldap_msg.specs.View.{response_view};
ghost use Rattle.ldap_msg.specs.Grammar.{response_octet, IsResponseContent};

use crate::message::Response;
use ldap_parts::{entry_of, extended_of, result_of};
use ldap_requests::MsgFault;
use std::alloc::Global;

/// The response of this first octet whose content this is.
pub fn response_of(alloc: Global, first: u8, content: &[u8]) -> Result<Response, MsgFault>
    ensures found { IfOk result (λ r. (response_octet (response_view r) ≡ first)
        × IsResponseContent (response_view r) content.now) }
    ensures fault { IfErr result (λ e. IsPlainFault e ((r : ResponseValue)
        × (response_octet r ≡ first) × IsResponseContent r content.now)) }
{
    match first {
        0x61 => Ok(Response::Bind(result_of(alloc, content)?)),
        0x64 => Ok(Response::SearchEntry(entry_of(alloc, content)?)),
        0x65 => Ok(Response::SearchDone(result_of(alloc, content)?)),
        0x67 => Ok(Response::Modify(result_of(alloc, content)?)),
        0x69 => Ok(Response::Add(result_of(alloc, content)?)),
        0x6b => Ok(Response::Delete(result_of(alloc, content)?)),
        0x6d => Ok(Response::ModifyDn(result_of(alloc, content)?)),
        0x6f => Ok(Response::Compare(result_of(alloc, content)?)),
        0x78 => Ok(Response::Extended(extended_of(alloc, content)?)),
        _ => Err(MsgFault::NotAMessage),
    }
}
