//! Writes a modify.

ghost use Rattle.std.specs.Prelude.{◌≡◌, ◌^◌, ◌≤◌, ◌<◌, ◌++◌, map, length, IfOk, OnOk, IsErrOf};
ghost use Rattle.ldap_ber.specs.Rows.{row_bytes};
ghost use Rattle.ldap_parts.specs.UpdateView.{change_view, modify_view};
ghost use Rattle.ldap_parts.specs.UpdateGrammar.{modify_number};
ghost use Rattle.ldap_parts.specs.UpdatesWritten.{change_content, change_bytes, modify_content};

use crate::encoding_attribute::attribute_content;
use crate::modify::{Change, ModifyOperation, ModifyRequest};
use ldap_ber::{WriteError, put_number, write};
use std::alloc::Global;

/// The number of what a change does.
fn modify_number(operation: ModifyOperation) -> u32
    ensures { result ≡ modify_number operation }
{
    match operation {
        ModifyOperation::Add => 0,
        ModifyOperation::Delete => 1,
        ModifyOperation::Replace => 2,
        ModifyOperation::Increment => 3,
    }
}

/// The content of a change's element.
fn change_content(alloc: Global, change: &Change) -> Result<Vec<u8>, WriteError>
    ensures ok { IfOk result (λ v. v.items ≡ change_content (change_view change.now)) }
    ensures too_long { IsErrOf result WriteError.TooLong
        → 2 ^ 32 ≤ length (change_content (change_view change.now)) }
{
    let mut content = Vec::new(alloc);
    put_number(0x0a, modify_number(change.operation), &mut content)?;
    let modification = attribute_content(alloc, &change.modification)?;
    write(0x30, &modification, &mut content)?;
    Ok(content)
}

/// Writes changes, one after the other.
fn put_changes(alloc: Global, changes: &[Change], out: &mut Vec<u8>) -> Result<(), WriteError>
    ensures ok { OnOk result (out.new.items ≡ out.old.items ++ row_bytes change_bytes
        (map change_view changes.now)) }
    ensures too_long { IsErrOf result WriteError.TooLong
        → 2 ^ 32 ≤ length (row_bytes change_bytes (map change_view changes.now)) }
{
    for change in changes {
        let content = change_content(alloc, change)?;
        write(0x30, &content, out)?;
    }
    Ok(())
}

/// The content of a modify.
pub fn modify_content(alloc: Global, modify: &ModifyRequest) -> Result<Vec<u8>, WriteError>
    ensures ok { IfOk result (λ v. v.items ≡ modify_content (modify_view modify.now)) }
    ensures too_long { IsErrOf result WriteError.TooLong
        → 2 ^ 32 ≤ length (modify_content (modify_view modify.now)) }
{
    let mut content = Vec::new(alloc);
    write(0x04, modify.object.as_bytes(), &mut content)?;
    let mut changes = Vec::new(alloc);
    put_changes(alloc, &modify.changes, &mut changes)?;
    write(0x30, &changes, &mut content)?;
    Ok(content)
}
