//! Writes a bind request.

ghost use Rattle.std.specs.Prelude.{◌≡◌, ◌^◌, ◌≤◌, ◌++◌, length, IfOk, OnOk, IsErrOf};
ghost use Rattle.ldap_requests.specs.View.{sasl_view, authentication_view, bind_view};
ghost use Rattle.ldap_requests.specs.Written.{sasl_content, authentication_bytes, bind_content};

use crate::bind::{AuthenticationChoice, BindRequest, SaslCredentials};
use ldap_filter::{WriteError, put_optional_octets, write, write_integer};
use std::alloc::Global;

/// The content of SASL credentials.
fn sasl_content(alloc: Global, sasl: &SaslCredentials) -> Result<Vec<u8>, WriteError>
    ensures ok { IfOk result (λ v. v.items ≡ sasl_content (sasl_view sasl.now)) }
    ensures too_long { IsErrOf result WriteError.TooLong
        → 2 ^ 32 ≤ length (sasl_content (sasl_view sasl.now)) }
{
    let mut content = Vec::new(alloc);
    write(0x04, sasl.mechanism.as_bytes(), &mut content)?;
    put_optional_octets(0x04, &sasl.credentials, &mut content)?;
    Ok(content)
}

/// Writes an authentication.
fn put_authentication(
    alloc: Global,
    authentication: &AuthenticationChoice,
    out: &mut Vec<u8>,
) -> Result<(), WriteError>
    ensures ok { OnOk result (out.new.items ≡ out.old.items
        ++ authentication_bytes (authentication_view authentication.now)) }
    ensures too_long { IsErrOf result WriteError.TooLong
        → 2 ^ 32 ≤ length (authentication_bytes (authentication_view authentication.now)) }
{
    match authentication {
        AuthenticationChoice::Simple(password) => write(0x80, password, out),
        AuthenticationChoice::Sasl(sasl) => {
            let content = sasl_content(alloc, sasl)?;
            write(0xa3, &content, out)
        }
    }
}

/// The content of a bind.
pub fn bind_content(alloc: Global, bind: &BindRequest) -> Result<Vec<u8>, WriteError>
    ensures ok { IfOk result (λ v. v.items ≡ bind_content (bind_view bind.now)) }
    ensures too_long { IsErrOf result WriteError.TooLong
        → 2 ^ 32 ≤ length (bind_content (bind_view bind.now)) }
{
    let mut content = Vec::new(alloc);
    write_integer(0x02, bind.version, &mut content)?;
    write(0x04, bind.name.as_bytes(), &mut content)?;
    put_authentication(alloc, &bind.authentication, &mut content)?;
    Ok(content)
}
