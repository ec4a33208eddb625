// Judges an entry by what its classes demand, when it is made or changed.

ghost use Rattle.std.specs.Prelude.{◌≡◌, Ok, IfOk, IfErr};
ghost use Rattle.dir_entry.specs.Entry.{attributes_of, IsKeyedBy};
ghost use Rattle.dir_entry.specs.Adding.{Refuses};
ghost use Rattle.entry_updates.specs.Classes.{completed, checked, settled};
ghost use Rattle.entry_updates.specs.Structural.{kept_completed};

use crate::completing::complete;
use crate::obeying::{has_single_values, obeys_classes};
use crate::structural::is_of_another_class;
use dir_entry::{Entry, EntryError, Schema};
use std::alloc::{AllocError, Global};

/// The entry with the superclasses that are missing at the end of objectClass. Its only error is want of memory.
pub fn with_superclasses(alloc: Global, schema: &Schema, entry: Entry) -> Result<Entry, AllocError>
    ensures shown { IfOk result (λ e. attributes_of e ≡ completed schema.now (attributes_of entry)) }
    ensures keyed { IfOk result (λ e. IsKeyedBy schema.now entry → IsKeyedBy schema.now e) }
{
    let attributes = complete(alloc, schema, entry.into_attributes())?;
    Ok(Entry::from_attributes(attributes))
}

/// The entry with its superclasses, if each SINGLE-VALUE type has one value and it obeys its classes.
pub fn settle(alloc: Global, schema: &Schema, entry: Entry) -> Result<Entry, EntryError>
    ensures ok { IfOk result (λ e. settled schema.now (attributes_of entry) ≡ Ok (attributes_of e)) }
    ensures keyed { IfOk result (λ e. IsKeyedBy schema.now entry → IsKeyedBy schema.now e) }

    // Each refusal is that of the first check that fails.
    ensures refused { IfErr result (λ e. Refuses e (settled schema.now (attributes_of entry))) }
{
    let entry = with_superclasses(alloc, schema, entry)?;
    check(alloc, schema, entry)
}

/// The entry as it stands, if each SINGLE-VALUE type has one value and it obeys its classes.
pub fn check(alloc: Global, schema: &Schema, entry: Entry) -> Result<Entry, EntryError>
    ensures ok { IfOk result (λ e. checked schema.now (attributes_of entry) ≡ Ok (attributes_of e)) }
    ensures same { IfOk result (λ e. e ≡ entry) }

    // Each refusal is that of the first check that fails.
    ensures refused { IfErr result (λ e. Refuses e (checked schema.now (attributes_of entry))) }
{
    if !has_single_values(schema, entry.attributes()) {
        return Err(EntryError::ConstraintViolation);
    }
    if !obeys_classes(alloc, schema, entry.attributes())? {
        return Err(EntryError::ObjectClassViolation);
    }
    Ok(entry)
}

/// The entry as it stands, if each SINGLE-VALUE type has one value, its structural class is the one before, and it
/// obeys its classes.
pub fn keep(
    alloc: Global,
    schema: &Schema,
    entry: Entry,
    before: &Entry,
) -> Result<Entry, EntryError>
    ensures ok { IfOk result (λ e. kept_completed schema.now (attributes_of before.now) (attributes_of entry) ≡
        Ok (attributes_of e)) }
    ensures same { IfOk result (λ e. e ≡ entry) }
    ensures refused { IfErr result (λ e. Refuses e (kept_completed schema.now (attributes_of before.now)
        (attributes_of entry))) }
{
    if !has_single_values(schema, entry.attributes()) {
        return Err(EntryError::ConstraintViolation);
    }
    if is_of_another_class(alloc, schema, &entry, before)? {
        return Err(EntryError::ObjectClassModsProhibited);
    }
    if !obeys_classes(alloc, schema, entry.attributes())? {
        return Err(EntryError::ObjectClassViolation);
    }
    Ok(entry)
}
