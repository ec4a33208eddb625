//! Writes an extended response.

ghost use Rattle.std.specs.Prelude.{◌≡◌, ◌^◌, ◌≤◌, length, IfOk, IsErrOf};
ghost use Rattle.ldap_parts.specs.ResponseView.{extended_view};
ghost use Rattle.ldap_parts.specs.ResponsesWritten.{extended_content};

use crate::encoding_result::result_content;
use crate::extended::ExtendedResponse;
use ldap_ber::{WriteError, put_optional_octets, put_optional_text};
use std::alloc::Global;

/// The content of an extended response.
pub fn extended_content(alloc: Global, extended: &ExtendedResponse) -> Result<Vec<u8>, WriteError>
    ensures ok { IfOk result (λ v. v.items ≡ extended_content (extended_view extended.now)) }
    ensures too_long { IsErrOf result WriteError.TooLong
        → 2 ^ 32 ≤ length (extended_content (extended_view extended.now)) }
{
    let mut content = result_content(alloc, &extended.result)?;
    put_optional_text(0x8a, &extended.response_name, &mut content)?;
    put_optional_octets(0x8b, &extended.response_value, &mut content)?;
    Ok(content)
}
