//! Reads an extended request, an abandon and an unbind.

ghost use Rattle.std.specs.Prelude.{ℤ, IfOk, IfErr};
ghost use Rattle.ldap_filter.specs.ldap_ber.Faults.{IsPlainFault};
ghost use Rattle.ldap_requests.specs.Values.{ExtendedRequestValue};
ghost use Rattle.ldap_requests.specs.View.{extended_request_view};
ghost use Rattle.ldap_requests.specs.Grammar.{IsExtendedRequest, IsAbandonRequest, IsUnbindRequest};

use crate::extended::ExtendedRequest;
use ldap_filter::{MsgFault, elements, optional_octets, small_integer, text_field};
use std::alloc::Global;

/// The extended request whose content this is.
pub fn extended_request_of(alloc: Global, content: &[u8]) -> Result<ExtendedRequest, MsgFault>
    ensures found { IfOk result (λ r. IsExtendedRequest (extended_request_view r) content.now) }
    ensures fault { IfErr result (λ e. IsPlainFault e ((r : ExtendedRequestValue)
        × IsExtendedRequest r content.now)) }
{
    let (request_name, rest) = text_field(alloc, 0x80, content)?;
    let (request_value, rest) = optional_octets(alloc, 0x81, rest)?;
    elements(rest)?;
    Ok(ExtendedRequest {
        request_name,
        request_value,
    })
}

/// The messageID that an abandon names, whose content this is.
pub fn abandon_of(content: &[u8]) -> Result<i64, MsgFault>
    ensures found { IfOk result (λ z. IsAbandonRequest z content.now) }
    ensures fault { IfErr result (λ e. IsPlainFault e ((z : ℤ) × IsAbandonRequest z content.now)) }
{
    small_integer(content)
}

/// Nothing, where the content is that of an unbind.
pub fn unbind_of(content: &[u8]) -> Result<(), MsgFault>
    ensures found { IfOk result (λ _. IsUnbindRequest content.now) }
    ensures fault { IfErr result (λ e. IsPlainFault e (IsUnbindRequest content.now)) }
{
    match content {
        [] => Ok(()),
        _ => Err(MsgFault::NotAMessage),
    }
}
