//! Makes the entry that a modifyDN asks for, or refuses it. The old entry stays as it is.
ghost use Rattle.std.specs.Prelude.{◌≡◌, Ok, IfOk, IfErr};
ghost use Rattle.entry_changes.specs.dir_entry.Entry.{attributes_of, IsKeyedBy};
ghost use Rattle.entry_updates.specs.Finishing.{renamed};
ghost use Rattle.entry_updates.specs.Refused.{RefusedAs};

use crate::fault::UpdateError;
use crate::finishing::rename;
use entry_changes::{Entry, Schema, TypeAndValue};
use std::alloc::Global;

/// The entry under a new relative name (RFC 4511 4.9): its values join; if asked, the old ones leave; then 19 and 65.
pub fn entry_renamed(
    alloc: Global,
    schema: &Schema,
    old: &[TypeAndValue],
    new: &[TypeAndValue],
    delete_old: bool,
    entry: &Entry,
) -> Result<Entry, UpdateError>
    requires { IsKeyedBy schema.now entry.now }
    ensures ok { IfOk result (λ e. renamed schema.now old.now new.now delete_old (attributes_of entry.now) ≡
        Ok (attributes_of e)) }
    ensures keyed { IfOk result (λ e. IsKeyedBy schema.now e) }
    ensures refused { IfErr result (λ e. RefusedAs e (renamed schema.now old.now new.now delete_old
        (attributes_of entry.now))) }
{
    let copy = entry.copy(alloc)?;
    let renamed = rename(alloc, schema, copy, old, new, delete_old)?;
    Ok(renamed)
}
