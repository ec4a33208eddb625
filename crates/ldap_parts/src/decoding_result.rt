//! Reads results.

ghost use Rattle.std.specs.Prelude.{ℕ, List, IfOk, IfErr, string_bytes};
ghost use Rattle.ldap_ber.specs.Faults.{IsPlainFault};
ghost use Rattle.ldap_parts.specs.Values.{LdapResultValue};
ghost use Rattle.ldap_parts.specs.View.{result_view};
ghost use Rattle.ldap_parts.specs.Grammar.{IsOutcome, HasLdapResult, IsLdapResult};

use crate::result::{LdapResult, ResultCode};
use ldap_ber::{MsgFault, elements, number_field, text_field, texts_or_none};
use std::alloc::Global;

/// The code and two texts at the front, and the octets after them.
fn outcome(alloc: Global, octets: &[u8]) -> Result<((u32, String, String), &[u8]), MsgFault>
    ensures found { IfOk result (λ x. IsOutcome x.0.0 (string_bytes x.0.1) (string_bytes x.0.2) octets.now x.1.now) }
    ensures fault { IfErr result (λ e. IsPlainFault e ((code : ℕ)
        × (matched_dn diagnostic_message rest : List ℕ)
        × IsOutcome code matched_dn diagnostic_message octets.now rest)) }
{
    let (code, octets) = number_field(0x0a, 0x8000_0000, octets)?;
    let (matched_dn, octets) = text_field(alloc, 0x04, octets)?;
    let (diagnostic_message, octets) = text_field(alloc, 0x04, octets)?;
    Ok(((code, matched_dn, diagnostic_message), octets))
}

/// The result at the front, and the octets after it.
pub fn result_field(alloc: Global, octets: &[u8]) -> Result<(LdapResult, &[u8]), MsgFault>
    ensures found { IfOk result (λ x. HasLdapResult (result_view x.0) octets.now x.1.now) }
    ensures fault { IfErr result (λ e. IsPlainFault e ((r : LdapResultValue) × (rest : List ℕ)
        × HasLdapResult r octets.now rest)) }
{
    let ((code, matched_dn, diagnostic_message), rest) = outcome(alloc, octets)?;
    let (referral, rest) = texts_or_none(alloc, 0xa3, rest)?;
    Ok((
        LdapResult {
            code: ResultCode::new(code),
            matched_dn,
            diagnostic_message,
            referral,
        },
        rest,
    ))
}

/// The result whose content this is: the whole of an LDAPResult, and elements after it that are ignored.
pub fn result_of(alloc: Global, content: &[u8]) -> Result<LdapResult, MsgFault>
    ensures found { IfOk result (λ r. IsLdapResult (result_view r) content.now) }
    ensures fault { IfErr result (λ e. IsPlainFault e ((r : LdapResultValue)
        × IsLdapResult r content.now)) }
{
    let (ldap_result, rest) = result_field(alloc, content)?;
    elements(rest)?;
    Ok(ldap_result)
}
