// Finds the first thing that is wrong with a text.

ghost use Rattle.std.specs.Prelude.{◌≡◌, None, Some, IfOk, IfErr};
ghost use Rattle.schema_meaning.specs.Faults as faults;
ghost use Rattle.schema_reader.specs.Reading as reading;
ghost use Rattle.schema_reader.specs.private.Reading as private_reading;

use crate::class_loops::class_loop;
use crate::error::SchemaError;
use crate::looping::{no_equality, required};
use crate::type_loops::type_loop;
use ldap_schema::{AttributeType, ObjectClass, TypeId};
use schema_meaning::{IndexedText, bad_line, earlier, unknown_line};
use std::alloc::{AllocError, Global};

/// The lower one of two lines.
fn lower(first: Option<usize>, second: usize) -> usize
    ensures { faults.earlier first (Some second) ≡ Some result }
{
    match first {
        None => second,
        Some(line) => { if second < line { second } else { line } }
    }
}

/// The first line of a type or a class whose SUP leads back to it.
fn loop_line(
    alloc: Global,
    text: &IndexedText,
    types: &[AttributeType],
    classes: &[ObjectClass],
) -> Result<Option<usize>, AllocError>
    ensures { IfOk result (λ o. o ≡ reading.loop_line text.now (record { types = types.now; classes = classes.now })) }
{
    let type_line = type_loop(alloc, types, text.types().all())?;
    let class_line = class_loop(alloc, classes, text.classes().all())?;
    Ok(earlier(type_line, class_line))
}

/// Nothing wrong with loops and EQUALITY rules.
fn without_loops(
    alloc: Global,
    text: &IndexedText,
    types: &[AttributeType],
    classes: &[ObjectClass],
) -> Result<(), SchemaError>
    ensures fine { IfOk result (λ u. reading.loop_fault text.now (record { types = types.now; classes = classes.now })
        ≡ None) }
    ensures refused { IfErr result (λ e. private_reading.IsFaultOf
        (reading.loop_fault text.now (record { types = types.now; classes = classes.now })) e) }
{
    match loop_line(alloc, text, types, classes)? {
        Some(line) => return Err(SchemaError::LoopInSup { line }),
        None => {}
    }
    match no_equality(types, text.types().all()) {
        Some(line) => Err(SchemaError::NoEquality { line }),
        None => Ok(()),
    }
}

/// The type objectClass, if all names are known.
fn without_unknown(
    text: &IndexedText,
    types: &[AttributeType],
    classes: &[ObjectClass],
) -> Result<TypeId, SchemaError>
    ensures fine { IfOk result
        (λ t. (reading.unknown_of text.now (record { types = types.now; classes = classes.now }) ≡ None)
        × (reading.required_in (record { types = types.now; classes = classes.now }) ≡ Some t)) }
    ensures refused { IfErr result (λ e. private_reading.IsUnknown
        (reading.unknown_of text.now (record { types = types.now; classes = classes.now })) e) }
{
    let unknown = unknown_line(text);
    let Some(object_class) = required(types, classes) else {
        let line = lower(unknown, text.text().behind());
        return Err(SchemaError::UnknownName { line });
    };
    match unknown {
        Some(line) => Err(SchemaError::UnknownName { line }),
        None => Ok(object_class),
    }
}

/// The type objectClass, if nothing is wrong.
pub fn judged(
    alloc: Global,
    text: &IndexedText,
    types: &[AttributeType],
    classes: &[ObjectClass],
) -> Result<TypeId, SchemaError>
    ensures fine { IfOk result
        (λ t. (reading.fault_of text.now (record { types = types.now; classes = classes.now }) ≡ None)
        × (reading.required_in (record { types = types.now; classes = classes.now }) ≡ Some t)) }
    ensures refused { IfErr result (λ e. private_reading.IsFaultOf
        (reading.fault_of text.now (record { types = types.now; classes = classes.now })) e) }
{
    match bad_line(alloc, text)? {
        Some(line) => return Err(SchemaError::BadDescription { line }),
        None => {}
    }
    let object_class = without_unknown(text, types, classes)?;
    without_loops(alloc, text, types, classes)?;
    Ok(object_class)
}
