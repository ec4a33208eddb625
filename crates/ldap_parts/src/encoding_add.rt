//! Writes an add.

ghost use Rattle.std.specs.Prelude.{◌≡◌, ◌^◌, ◌≤◌, length, IfOk, IsErrOf};
ghost use Rattle.ldap_parts.specs.UpdateView.{add_view};
ghost use Rattle.ldap_parts.specs.UpdatesWritten.{add_content};

use crate::add::AddRequest;
use crate::encoding_attribute::put_attributes;
use ldap_ber::{WriteError, write};
use std::alloc::Global;

/// The content of an add.
pub fn add_content(alloc: Global, add: &AddRequest) -> Result<Vec<u8>, WriteError>
    ensures ok { IfOk result (λ v. v.items ≡ add_content (add_view add.now)) }
    ensures too_long { IsErrOf result WriteError.TooLong
        → 2 ^ 32 ≤ length (add_content (add_view add.now)) }
{
    let mut content = Vec::new(alloc);
    write(0x04, add.entry.as_bytes(), &mut content)?;
    let mut attributes = Vec::new(alloc);
    put_attributes(alloc, &add.attributes, &mut attributes)?;
    write(0x30, &attributes, &mut content)?;
    Ok(content)
}
