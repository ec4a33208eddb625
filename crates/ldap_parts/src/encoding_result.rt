//! Writes results.

ghost use Rattle.std.specs.Prelude.{◌≡◌, ◌^◌, ◌≤◌, ◌++◌, map, length, string_bytes, IfOk, OnOk, IsErrOf};
ghost use Rattle.std.specs.Option.{option_map};
ghost use Rattle.ldap_ber.specs.Element.{element_bytes};
ghost use Rattle.ldap_parts.specs.View.{result_view};
ghost use Rattle.ldap_ber.specs.Written.{row_or_none_bytes, optional_bytes};
ghost use Rattle.ldap_parts.specs.Written.{result_content};

use crate::result::LdapResult;
use ldap_ber::{WriteError, put_number, put_texts, write};
use std::alloc::Global;

/// Writes URIs, or nothing where there are none.
fn put_referral(alloc: Global, referral: &[String], out: &mut Vec<u8>) -> Result<(), WriteError>
    ensures ok { OnOk result (out.new.items ≡ out.old.items ++ row_or_none_bytes (element_bytes 4) 163
        (map string_bytes referral.now)) }
    ensures too_long { IsErrOf result WriteError.TooLong
        → 2 ^ 32 ≤ length (row_or_none_bytes (element_bytes 4) 163
        (map string_bytes referral.now)) }
{
    match referral {
        [] => Ok(()),
        _ => {
            let mut uris = Vec::new(alloc);
            put_texts(referral, &mut uris)?;
            write(0xa3, &uris, out)
        }
    }
}

/// The content of a result.
pub fn result_content(alloc: Global, ldap_result: &LdapResult) -> Result<Vec<u8>, WriteError>
    ensures ok { IfOk result (λ v. v.items ≡ result_content (result_view ldap_result.now)) }
    ensures too_long { IsErrOf result WriteError.TooLong
        → 2 ^ 32 ≤ length (result_content (result_view ldap_result.now)) }
{
    let mut content = Vec::new(alloc);
    put_number(0x0a, ldap_result.code.number(), &mut content)?;
    write(0x04, ldap_result.matched_dn.as_bytes(), &mut content)?;
    write(
        0x04,
        ldap_result.diagnostic_message.as_bytes(),
        &mut content,
    )?;
    put_referral(alloc, &ldap_result.referral, &mut content)?;
    Ok(content)
}
