//! Judges the end of an update (RFC 4511 4.6, 4.7, 4.9).
ghost use Rattle.std.specs.Prelude.{◌≡◌, Ok, IfOk, IfErr};
ghost use Rattle.entry_changes.specs.dir_entry.Entry.{attributes_of, IsKeyedBy};
ghost use Rattle.entry_changes.specs.dir_entry.Adding.{Refuses};
ghost use Rattle.entry_updates.specs.Finishing.{kept, named, dropped, renamed};

use crate::checking::{keep, settle, with_superclasses};
use entry_changes::{Entry, EntryError, Schema, TypeAndValue, add_rdn, delete_rdn, holds_rdn};
use std::alloc::Global;

/// The entry at the end of a modify (RFC 4511 4.6), with its superclasses: 67 where a value of its relative name is
/// gone, then 19, 69 where its structural object class is another one than before, and 65.
pub fn finish(
    alloc: Global,
    schema: &Schema,
    entry: Entry,
    rdn: &[TypeAndValue],
    before: &Entry,
) -> Result<Entry, EntryError>
    requires { IsKeyedBy schema.now entry }
    ensures ok { IfOk result (λ e. kept schema.now rdn.now (attributes_of before.now) (attributes_of entry) ≡
        Ok (attributes_of e)) }
    ensures keyed { IfOk result (λ e. IsKeyedBy schema.now e) }
    ensures refused { IfErr result (λ e. Refuses e (kept schema.now rdn.now (attributes_of before.now)
        (attributes_of entry))) }
{
    if !holds_rdn(alloc, schema, &entry, rdn)? {
        return Err(EntryError::NotAllowedOnRdn);
    }
    let entry = with_superclasses(alloc, schema, entry)?;
    keep(alloc, schema, entry, before)
}

/// The attributes of a new entry with this relative name (RFC 4511 4.7): its values join, then the superclasses; then
/// 19 and 65.
pub fn name(
    alloc: Global,
    schema: &Schema,
    entry: Entry,
    rdn: &[TypeAndValue],
) -> Result<Entry, EntryError>
    requires { IsKeyedBy schema.now entry }
    ensures ok { IfOk result (λ e. named schema.now rdn.now (attributes_of entry) ≡ Ok (attributes_of e)) }
    ensures keyed { IfOk result (λ e. IsKeyedBy schema.now e) }
    ensures refused { IfErr result (λ e. Refuses e (named schema.now rdn.now (attributes_of entry))) }
{
    let entry = add_rdn(alloc, schema, entry, rdn)?;
    settle(alloc, schema, entry)
}

/// The entry without the values of its former relative name, if that is asked.
fn drop_old(
    alloc: Global,
    schema: &Schema,
    entry: Entry,
    delete_old: bool,
    new: &[TypeAndValue],
    old: &[TypeAndValue],
) -> Result<Entry, EntryError>
    requires { IsKeyedBy schema.now entry }
    ensures ok { IfOk result (λ e. dropped schema.now delete_old new.now old.now (attributes_of entry) ≡
        Ok (attributes_of e)) }
    ensures keyed { IfOk result (λ e. IsKeyedBy schema.now e) }
    ensures refused { IfErr result (λ e. Refuses e (dropped schema.now delete_old new.now old.now
        (attributes_of entry))) }
{
    if delete_old {
        delete_rdn(alloc, schema, entry, new, old)
    } else {
        Ok(entry)
    }
}

/// The entry under a new relative name (RFC 4511 4.9): its values join; if asked, the old ones leave; then the
/// superclasses; then 19 and 65.
pub fn rename(
    alloc: Global,
    schema: &Schema,
    entry: Entry,
    old: &[TypeAndValue],
    new: &[TypeAndValue],
    delete_old: bool,
) -> Result<Entry, EntryError>
    requires { IsKeyedBy schema.now entry }
    ensures ok { IfOk result (λ e. renamed schema.now old.now new.now delete_old (attributes_of entry) ≡
        Ok (attributes_of e)) }
    ensures keyed { IfOk result (λ e. IsKeyedBy schema.now e) }
    ensures refused { IfErr result (λ e. Refuses e (renamed schema.now old.now new.now delete_old
        (attributes_of entry))) }
{
    let entry = add_rdn(alloc, schema, entry, new)?;
    let renamed = drop_old(alloc, schema, entry, delete_old, new, old)?;
    settle(alloc, schema, renamed)
}
