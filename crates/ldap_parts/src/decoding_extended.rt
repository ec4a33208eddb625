//! Reads an extended response.

ghost use Rattle.std.specs.Prelude.{IfOk, IfErr};
ghost use Rattle.ldap_ber.specs.Faults.{IsPlainFault};
ghost use Rattle.ldap_parts.specs.ResponseValues.{ExtendedResponseValue};
ghost use Rattle.ldap_parts.specs.ResponseView.{extended_view};
ghost use Rattle.ldap_parts.specs.ResponseGrammar.{IsExtendedResponse};

use crate::decoding_result::result_field;
use crate::extended::ExtendedResponse;
use ldap_ber::{MsgFault, elements, optional_octets, optional_text};
use std::alloc::Global;

/// The extended response whose content this is.
pub fn extended_of(alloc: Global, content: &[u8]) -> Result<ExtendedResponse, MsgFault>
    ensures found { IfOk result (λ r. IsExtendedResponse (extended_view r) content.now) }
    ensures fault { IfErr result (λ e. IsPlainFault e ((r : ExtendedResponseValue)
        × IsExtendedResponse r content.now)) }
{
    let (ldap_result, rest) = result_field(alloc, content)?;
    let (response_name, rest) = optional_text(alloc, 0x8a, rest)?;
    let (response_value, rest) = optional_octets(alloc, 0x8b, rest)?;
    elements(rest)?;
    Ok(ExtendedResponse {
        result: ldap_result,
        response_name,
        response_value,
    })
}
