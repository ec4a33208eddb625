//! Makes the entry that a modify asks for, or refuses it. The old entry stays as it is.
ghost use Rattle.std.specs.Prelude.{◌≡◌, Ok, map, IfOk, IfErr};
ghost use Rattle.entry_changes.specs.dir_entry.Entry.{attributes_of, IsKeyedBy};
ghost use Rattle.ldap_op.specs.ldap_parts.UpdateView.{change_view};
ghost use Rattle.entry_updates.specs.Modifying.{is_increment as is_increment_of, with_change, changed, all_changed, attributes_changed};
ghost use Rattle.entry_updates.specs.Refused.{RefusedAs};

use crate::fault::UpdateError;
use crate::finishing::finish;
use entry_changes::{
    Entry, Schema, TypeAndValue, TypeId, Working, add_values, copy_values, delete_values,
    replace_values,
};
use ldap_op::{Change, ModifyOperation, ResultCode};
use std::alloc::Global;

/// Whether the change is an increment.
fn is_increment(operation: ModifyOperation) -> bool
    ensures { result ≡ is_increment_of operation }
{
    match operation {
        ModifyOperation::Increment => true,
        ModifyOperation::Add | ModifyOperation::Delete | ModifyOperation::Replace => false,
    }
}

/// The entry after a change of a recognised type.
fn change_type(
    alloc: Global,
    schema: &Schema,
    operation: ModifyOperation,
    type_id: TypeId,
    values: Vec<Vec<u8>>,
    entry: Working,
) -> Result<Working, UpdateError>
    requires { IsKeyedBy schema.now entry }
    ensures ok { IfOk result (λ e. with_change schema.now operation type_id (map (λ v. v.items) values.items)
        (attributes_of entry) ≡ Ok (attributes_of e)) }
    ensures keyed { IfOk result (λ e. IsKeyedBy schema.now e) }
    ensures refused { IfErr result
        (λ e. RefusedAs e (with_change schema.now operation type_id (map (λ v. v.items) values.items)
        (attributes_of entry))) }
{
    let changed = match operation {
        ModifyOperation::Add => add_values(alloc, schema, entry, type_id, values)?,
        ModifyOperation::Delete => delete_values(alloc, schema, entry, type_id, values)?,
        ModifyOperation::Replace => replace_values(alloc, schema, entry, type_id, values)?,
        ModifyOperation::Increment => {
            return Err(UpdateError::Refused(ResultCode::PROTOCOL_ERROR));
        }
    };
    Ok(changed)
}

/// The entry after one change.
fn change(
    alloc: Global,
    schema: &Schema,
    asked: &Change,
    entry: Working,
) -> Result<Working, UpdateError>
    requires { IsKeyedBy schema.now entry }
    ensures ok { IfOk result (λ e. changed schema.now (change_view asked.now) (attributes_of entry) ≡
        Ok (attributes_of e)) }
    ensures keyed { IfOk result (λ e. IsKeyedBy schema.now e) }
    ensures refused { IfErr result (λ e. RefusedAs e (changed schema.now (change_view asked.now)
        (attributes_of entry))) }
{
    if is_increment(asked.operation) {
        return Err(UpdateError::Refused(ResultCode::PROTOCOL_ERROR));
    }
    let Some(type_id) = schema.find(&asked.modification.description) else {
        return Err(UpdateError::Refused(ResultCode::UNDEFINED_ATTRIBUTE_TYPE));
    };
    let values = copy_values(alloc, &asked.modification.values)?;
    change_type(alloc, schema, asked.operation, type_id, values, entry)
}

/// The entry after the changes, each made on the result of the one before.
fn change_all(
    alloc: Global,
    schema: &Schema,
    changes: &[Change],
    entry: Working,
) -> Result<Working, UpdateError>
    requires { IsKeyedBy schema.now entry }
    ensures ok { IfOk result (λ e. all_changed schema.now (map change_view changes.now) (attributes_of entry) ≡
        Ok (attributes_of e)) }
    ensures keyed { IfOk result (λ e. IsKeyedBy schema.now e) }
    ensures refused { IfErr result (λ e. RefusedAs e (all_changed schema.now (map change_view changes.now)
        (attributes_of entry))) }
{
    let mut so_far = entry;
    for asked in changes {
        so_far = change(alloc, schema, asked, so_far)?;
    }
    Ok(so_far)
}

/// A copy of the entry after the changes.
fn copy_changed(
    alloc: Global,
    schema: &Schema,
    changes: &[Change],
    entry: &Entry,
) -> Result<Entry, UpdateError>
    requires { IsKeyedBy schema.now entry.now }
    ensures ok { IfOk result (λ e. all_changed schema.now (map change_view changes.now) (attributes_of entry.now) ≡
        Ok (attributes_of e)) }
    ensures keyed { IfOk result (λ e. IsKeyedBy schema.now e) }
    ensures refused { IfErr result (λ e. RefusedAs e (all_changed schema.now (map change_view changes.now)
        (attributes_of entry.now))) }
{
    let copy = Working::of(alloc, entry.copy(alloc)?)?;
    let changed = change_all(alloc, schema, changes, copy)?;
    Ok(changed.into_entry(alloc)?)
}

/// The entry after a modify (RFC 4511 4.6), of which the relative name is given: for each change in order 2, 17, 19, 21
/// and 20 or 16; at the end 67, 19, 69 and 65.
pub fn entry_changed(
    alloc: Global,
    schema: &Schema,
    rdn: &[TypeAndValue],
    changes: &[Change],
    entry: &Entry,
) -> Result<Entry, UpdateError>
    requires { IsKeyedBy schema.now entry.now }
    ensures ok { IfOk result (λ e. attributes_changed schema.now rdn.now (map change_view changes.now)
        (attributes_of entry.now) ≡ Ok (attributes_of e)) }
    ensures keyed { IfOk result (λ e. IsKeyedBy schema.now e) }
    ensures refused { IfErr result
        (λ e. RefusedAs e (attributes_changed schema.now rdn.now (map change_view changes.now)
        (attributes_of entry.now))) }
{
    let changed = copy_changed(alloc, schema, changes, entry)?;
    let kept = finish(alloc, schema, changed, rdn, entry)?;
    Ok(kept)
}
