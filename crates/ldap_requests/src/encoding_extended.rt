//! Writes an extended request, and an abandon.

ghost use Rattle.std.specs.Prelude.{◌≡◌, ◌^◌, ◌≤◌, length, IfOk, IfErr, IsErrOf};
ghost use Rattle.ldap_filter.specs.ldap_ber.Values.{integer_octets};
ghost use Rattle.ldap_requests.specs.View.{extended_request_view};
ghost use Rattle.ldap_requests.specs.Written.{extended_request_content};

use crate::extended::ExtendedRequest;
use ldap_filter::{WriteError, copied, put_optional_octets, write, write_integer};
use std::alloc::Global;

/// The content of an extended request.
pub fn extended_request_content(
    alloc: Global,
    extended: &ExtendedRequest,
) -> Result<Vec<u8>, WriteError>
    ensures ok { IfOk result (λ v. v.items ≡ extended_request_content (extended_request_view extended.now)) }
    ensures too_long { IsErrOf result WriteError.TooLong
        → 2 ^ 32 ≤ length (extended_request_content (extended_request_view extended.now)) }
{
    let mut content = Vec::new(alloc);
    write(0x80, extended.request_name.as_bytes(), &mut content)?;
    put_optional_octets(0x81, &extended.request_value, &mut content)?;
    Ok(content)
}

/// The content of an abandon: the integer alone, which stands behind two octets of its element.
pub fn abandon_content(alloc: Global, id: &i64) -> Result<Vec<u8>, WriteError>
    ensures ok { IfOk result (λ v. v.items ≡ integer_octets id.now) }
    ensures no_memory { IfErr result (λ e. e ≡ WriteError.NoMemory) }
{
    let mut element = Vec::new(alloc);
    write_integer(0x02, *id, &mut element)?;
    copied(alloc, &element.as_slice()[2..])
}
