//! Writes a compare request.

ghost use Rattle.std.specs.Prelude.{◌≡◌, ◌^◌, ◌≤◌, length, IfOk, IsErrOf};
ghost use Rattle.ldap_requests.specs.View.{ava_view, compare_view};
ghost use Rattle.ldap_requests.specs.Written.{ava_content, compare_content};

use crate::compare::{AttributeValueAssertion, CompareRequest};
use ldap_filter::{WriteError, write};
use std::alloc::Global;

/// The content of an assertion.
fn ava_content(alloc: Global, ava: &AttributeValueAssertion) -> Result<Vec<u8>, WriteError>
    ensures ok { IfOk result (λ v. v.items ≡ ava_content (ava_view ava.now)) }
    ensures too_long { IsErrOf result WriteError.TooLong
        → 2 ^ 32 ≤ length (ava_content (ava_view ava.now)) }
{
    let mut content = Vec::new(alloc);
    write(0x04, ava.attribute_desc.as_bytes(), &mut content)?;
    write(0x04, &ava.assertion_value, &mut content)?;
    Ok(content)
}

/// The content of a compare.
pub fn compare_content(alloc: Global, compare: &CompareRequest) -> Result<Vec<u8>, WriteError>
    ensures ok { IfOk result (λ v. v.items ≡ compare_content (compare_view compare.now)) }
    ensures too_long { IsErrOf result WriteError.TooLong
        → 2 ^ 32 ≤ length (compare_content (compare_view compare.now)) }
{
    let mut content = Vec::new(alloc);
    write(0x04, compare.entry.as_bytes(), &mut content)?;
    let ava = ava_content(alloc, &compare.ava)?;
    write(0x30, &ava, &mut content)?;
    Ok(content)
}
