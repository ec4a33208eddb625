//! Makes the entry that an add asks for, or refuses it.
ghost use Rattle.std.specs.Prelude.{◌≡◌, [], Ok, map, IfOk, IfErr, OnOk};
ghost use Rattle.entry_changes.specs.dir_entry.Entry.{attributes_of, IsKeyedBy};
ghost use Rattle.ldap_op.specs.ldap_parts.View.{attribute_view};
ghost use Rattle.entry_changes.specs.ldap_schema.Schema.{find as type_of};
ghost use Rattle.entry_updates.specs.Adding.{with_given, with_all_given, attributes_asked};
ghost use Rattle.entry_updates.specs.Refused.{RefusedAs};

use crate::fault::UpdateError;
use crate::finishing::name;
use entry_changes::{Entry, Schema, TypeAndValue, copy_values};
use ldap_op::{PartialAttribute, ResultCode};
use std::alloc::Global;

/// Adds what is given to the entry.
fn add_given(
    alloc: Global,
    schema: &Schema,
    given: &PartialAttribute,
    entry: &mut Entry,
) -> Result<(), UpdateError>
    ensures ok { OnOk result (with_given schema.now (type_of schema.now (attribute_view given.now).description)
        (attribute_view given.now).values (attributes_of entry.old)
        ≡ Ok (attributes_of entry.new)) }
    ensures keyed { OnOk result (IsKeyedBy schema.now entry.old → IsKeyedBy schema.now entry.new) }
    ensures refused { IfErr result
        (λ e. RefusedAs e (with_given schema.now (type_of schema.now (attribute_view given.now).description)
        (attribute_view given.now).values
        (attributes_of entry.old))) }
{
    let Some(type_id) = schema.find(&given.description) else {
        return Err(UpdateError::Refused(ResultCode::UNDEFINED_ATTRIBUTE_TYPE));
    };
    let values = copy_values(alloc, &given.values)?;
    entry.add(alloc, schema, type_id, values)?;
    Ok(())
}

/// The entry of what is given, one attribute after the other.
fn entry_given(
    alloc: Global,
    schema: &Schema,
    given: &[PartialAttribute],
) -> Result<Entry, UpdateError>
    ensures ok { IfOk result (λ e. with_all_given schema.now (map attribute_view given.now) [] ≡ Ok (attributes_of e)) }
    ensures keyed { IfOk result (λ e. IsKeyedBy schema.now e) }
    ensures refused { IfErr result (λ e. RefusedAs e (with_all_given schema.now (map attribute_view given.now) [])) }
{
    let mut entry = Entry::new(alloc);
    for attribute in given {
        add_given(alloc, schema, attribute, &mut entry)?;
    }
    Ok(entry)
}

/// The new entry of an add (RFC 4511 4.7): for each attribute in order 17, 21 and 20; then the values of its relative
/// name and the superclasses join, and 19 and 65 are judged.
pub fn entry_asked(
    alloc: Global,
    schema: &Schema,
    rdn: &[TypeAndValue],
    given: &[PartialAttribute],
) -> Result<Entry, UpdateError>
    ensures ok { IfOk result (λ e. attributes_asked schema.now rdn.now (map attribute_view given.now) ≡
        Ok (attributes_of e)) }
    ensures keyed { IfOk result (λ e. IsKeyedBy schema.now e) }
    ensures refused { IfErr result
        (λ e. RefusedAs e (attributes_asked schema.now rdn.now (map attribute_view given.now))) }
{
    let entry = entry_given(alloc, schema, given)?;
    let entry = name(alloc, schema, entry, rdn)?;
    Ok(entry)
}
