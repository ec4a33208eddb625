//! Writes a modifyDN and a delete.

ghost use Rattle.std.specs.Prelude.{◌≡◌, ◌^◌, ◌≤◌, length, IfOk, IfErr, IsErrOf, string_bytes};
ghost use Rattle.ldap_parts.specs.UpdateView.{modify_dn_view};
ghost use Rattle.ldap_parts.specs.UpdatesWritten.{modify_dn_content};

use crate::modify_dn::ModifyDnRequest;
use ldap_ber::{WriteError, copied, put_flag, put_optional_text, write};
use std::alloc::Global;

/// The content of a modifyDN.
pub fn modify_dn_content(alloc: Global, modify_dn: &ModifyDnRequest) -> Result<Vec<u8>, WriteError>
    ensures ok { IfOk result (λ v. v.items ≡ modify_dn_content (modify_dn_view modify_dn.now)) }
    ensures too_long { IsErrOf result WriteError.TooLong
        → 2 ^ 32 ≤ length (modify_dn_content (modify_dn_view modify_dn.now)) }
{
    let mut content = Vec::new(alloc);
    write(0x04, modify_dn.entry.as_bytes(), &mut content)?;
    write(0x04, modify_dn.newrdn.as_bytes(), &mut content)?;
    put_flag(modify_dn.deleteoldrdn, &mut content)?;
    put_optional_text(0x80, &modify_dn.new_superior, &mut content)?;
    Ok(content)
}

/// The content of a delete: the name itself.
pub fn delete_content(alloc: Global, name: &String) -> Result<Vec<u8>, WriteError>
    ensures ok { IfOk result (λ v. v.items ≡ string_bytes name.now) }
    ensures no_memory { IfErr result (λ e. e ≡ WriteError.NoMemory) }
{
    copied(alloc, name.as_bytes())
}
