//! Reads a bind request.

ghost use Rattle.std.specs.Prelude.{ℕ, List, IfOk, IfErr};
ghost use Rattle.ldap_filter.specs.ldap_ber.Faults.{IsPlainFault};
ghost use Rattle.ldap_filter.specs.ldap_ber.Fields.{HasPart};
ghost use Rattle.ldap_requests.specs.Values.{SaslCredentialsValue, AuthenticationValue, BindRequestValue};
ghost use Rattle.ldap_requests.specs.View.{sasl_view, authentication_view, bind_view};
ghost use Rattle.ldap_requests.specs.Grammar.{IsSaslCredentials, HasAuthentication, IsBindRequest};

use crate::bind::{AuthenticationChoice, BindRequest, SaslCredentials};
use ldap_filter::{
    MsgFault, elements, field, has_first, integer_field, octets_field, optional_octets, text_field,
};
use std::alloc::Global;

/// The SASL credentials whose content this is.
fn sasl_of(alloc: Global, content: &[u8]) -> Result<SaslCredentials, MsgFault>
    ensures found { IfOk result (λ s. IsSaslCredentials (sasl_view s) content.now) }
    ensures fault { IfErr result (λ e. IsPlainFault e ((s : SaslCredentialsValue)
        × IsSaslCredentials s content.now)) }
{
    let (mechanism, rest) = text_field(alloc, 0x04, content)?;
    let (credentials, rest) = optional_octets(alloc, 0x04, rest)?;
    elements(rest)?;
    Ok(SaslCredentials {
        mechanism,
        credentials,
    })
}

/// The SASL credentials at the front, and the octets after them.
fn sasl_field(alloc: Global, octets: &[u8]) -> Result<(SaslCredentials, &[u8]), MsgFault>
    ensures found { IfOk result (λ x. HasPart (IsSaslCredentials (sasl_view x.0)) octets.now 163 x.1.now) }
    ensures fault { IfErr result (λ e. IsPlainFault e ((s : SaslCredentialsValue) × (rest : List ℕ)
        × HasPart (IsSaslCredentials s) octets.now 163 rest)) }
{
    let (content, rest) = field(0xa3, octets)?;
    let sasl = sasl_of(alloc, content)?;
    Ok((sasl, rest))
}

/// The authentication at the front, and the octets after it.
fn authentication_field(
    alloc: Global,
    octets: &[u8],
) -> Result<(AuthenticationChoice, &[u8]), MsgFault>
    ensures found { IfOk result (λ x. HasAuthentication (authentication_view x.0) octets.now x.1.now) }
    ensures fault { IfErr result (λ e. IsPlainFault e ((a : AuthenticationValue) × (rest : List ℕ)
        × HasAuthentication a octets.now rest)) }
{
    if has_first(0x80, octets) {
        let (password, rest) = octets_field(alloc, 0x80, octets)?;
        return Ok((AuthenticationChoice::Simple(password), rest));
    }
    let (sasl, rest) = sasl_field(alloc, octets)?;
    Ok((AuthenticationChoice::Sasl(sasl), rest))
}

/// The bind whose content this is.
pub fn bind_of(alloc: Global, content: &[u8]) -> Result<BindRequest, MsgFault>
    ensures found { IfOk result (λ b. IsBindRequest (bind_view b) content.now) }
    ensures fault { IfErr result (λ e. IsPlainFault e ((b : BindRequestValue)
        × IsBindRequest b content.now)) }
{
    let (version, rest) = integer_field(0x02, content)?;
    let (name, rest) = text_field(alloc, 0x04, rest)?;
    let (authentication, rest) = authentication_field(alloc, rest)?;
    elements(rest)?;
    Ok(BindRequest {
        version,
        name,
        authentication,
    })
}
