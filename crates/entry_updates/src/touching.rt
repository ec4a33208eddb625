//! The attributes that a modify may touch.
ghost use Rattle.std.specs.Prelude.{◌≡◌, ◌++◌, map, IfOk, OnOk};
ghost use Rattle.entry_changes.specs.ldap_schema.Schema.{find as type_of};
ghost use Rattle.entry_changes.specs.dir_entry.Entry.{attributes_of, IsKeyedBy};
ghost use Rattle.ldap_op.specs.ldap_parts.UpdateView.{change_view};
ghost use Rattle.entry_updates.specs.Touched.{is_of_values as is_of_the_values, type_whole, values_named, types_whole, all_values_named, types_unruled, types_touched};
ghost use Rattle.entry_updates.specs.private.Touched.{IsNamed};

use dir_entry::{Attribute, ValueError, equality_rule};
use entry_changes::{Entry, Schema, TypeId, copy_values};
use ldap_op::{Change, ModifyOperation};
use std::alloc::{AllocError, Global};

/// As many values of a change are told apart from others of their type; for more, all values of both sides cost less.
const FEW: usize = 64;

/// What a modify may touch of an entry. All else is the same behind it.
#[derive(Drop)]
pub struct TouchedAttributes {
    /// All attributes of these types.
    pub types: Vec<TypeId>,
    /// Values that the entry may have on one side alone, with their keys.
    pub named: Vec<Attribute>,
}

/// Whether a change leaves the values that it doesn't name as they are.
fn is_of_values(operation: ModifyOperation, values: &[Vec<u8>]) -> bool
    ensures { result ≡ is_of_the_values operation (map (λ v. v.items) values.now) }
{
    match operation {
        ModifyOperation::Add => true,
        ModifyOperation::Delete => !values.is_empty(),
        ModifyOperation::Replace | ModifyOperation::Increment => false,
    }
}

/// The values of a change as an attribute, if it touches these alone.
fn values_of(
    alloc: Global,
    schema: &Schema,
    asked: &Change,
    type_id: TypeId,
) -> Result<Option<Attribute>, AllocError>
    ensures { IfOk result (IsNamed schema.now (change_view asked.now) type_id) }
{
    let values = asked.modification.values.as_slice();
    if !is_of_values(asked.operation, values) || values.len() > FEW {
        return Ok(None);
    }
    if equality_rule(schema, type_id).is_none() {
        return Ok(None);
    }
    let values = copy_values(alloc, values)?;
    match Attribute::new(alloc, schema, type_id, values) {
        Ok(attribute) => Ok(Some(attribute)),
        Err(ValueError::NotInSyntax) => Ok(None),
        Err(ValueError::NoMemory) => Err(AllocError),
    }
}

/// Puts what a change touches behind the rest.
fn touch(
    alloc: Global,
    schema: &Schema,
    asked: &Change,
    touched: &mut TouchedAttributes,
) -> Result<(), AllocError>
    ensures types { OnOk result (touched.new.types.items ≡ touched.old.types.items ++ type_whole schema.now
        (change_view asked.now) (type_of schema.now (change_view asked.now).modification.description)) }
    ensures named { OnOk result (attributes_of touched.new.named.items ≡ attributes_of touched.old.named.items ++
        values_named schema.now (change_view asked.now)
        (type_of schema.now (change_view asked.now).modification.description)) }
    ensures keyed { OnOk result (IsKeyedBy schema.now touched.old.named.items →
        IsKeyedBy schema.now touched.new.named.items) }
{
    let Some(type_id) = schema.find(&asked.modification.description) else {
        return Ok(());
    };
    match values_of(alloc, schema, asked, type_id)? {
        Some(attribute) => touched.named.push(attribute)?,
        None => touched.types.push(type_id)?,
    }
    Ok(())
}

/// Puts what changes touch behind the rest.
fn touch_all(
    alloc: Global,
    schema: &Schema,
    changes: &[Change],
    touched: &mut TouchedAttributes,
) -> Result<(), AllocError>
    ensures types { OnOk result (touched.new.types.items ≡ touched.old.types.items ++ types_whole schema.now
        (map change_view changes.now)) }
    ensures named { OnOk result (attributes_of touched.new.named.items ≡ attributes_of touched.old.named.items ++
        all_values_named schema.now (map change_view changes.now)) }
    ensures keyed { OnOk result (IsKeyedBy schema.now touched.old.named.items →
        IsKeyedBy schema.now touched.new.named.items) }
{
    for asked in changes {
        touch(alloc, schema, asked, touched)?;
    }
    Ok(())
}

/// Puts the types of attributes that have no EQUALITY rule behind the others.
fn push_unruled(
    schema: &Schema,
    attributes: &[Attribute],
    types: &mut Vec<TypeId>,
) -> Result<(), AllocError>
    ensures { OnOk result (types.new.items ≡ types.old.items ++ types_unruled schema.now
        (attributes_of attributes.now)) }
{
    for attribute in attributes {
        let type_id = attribute.type_id();
        match equality_rule(schema, type_id) {
            Some(_) => {}
            None => types.push(type_id)?,
        }
    }
    Ok(())
}

/// What a modify may touch: the types of which it may change any value; objectClass, which gets the superclasses that are
/// missing; types without an EQUALITY rule, whose keys no rule gives; and, of other types, values that it names.
pub fn touched_attributes(
    alloc: Global,
    schema: &Schema,
    changes: &[Change],
    entry: &Entry,
) -> Result<TouchedAttributes, AllocError>
    ensures types { IfOk result (λ t. t.types.items ≡ types_touched schema.now (map change_view changes.now)
        (attributes_of entry.now)) }
    ensures named { IfOk result (λ t. attributes_of t.named.items ≡ all_values_named schema.now
        (map change_view changes.now)) }
    ensures keyed { IfOk result (λ t. IsKeyedBy schema.now t.named.items) }
{
    let mut types = Vec::new(alloc);
    types.push(schema.object_class_type())?;
    let mut touched = TouchedAttributes {
        types,
        named: Vec::new(alloc),
    };
    touch_all(alloc, schema, changes, &mut touched)?;
    push_unruled(schema, entry.attributes(), &mut touched.types)?;
    Ok(touched)
}
