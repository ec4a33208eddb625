// Reads a schema from a text, or says what is wrong first.

ghost use Rattle.std.specs.Prelude.{◌≡◌, Ok, IfOk, IfErr};
ghost use Rattle.schema_reader.specs.Reading.{schema_of_text, schema_of_lines, IsRefusalOf};
ghost use Rattle.schema_reader.specs.BuiltIn.{built_in, built_in_text};

use crate::built_in::BUILT_IN;
use crate::described::{classes_of, types_of};
use crate::error::SchemaError;
use crate::judging::judged;
use ldap_schema::Schema;
use schema_meaning::{IndexedText, SchemaText, read_text};
use std::alloc::{AllocError, Global};

/// The built-in schema, read from its text. The text is a schema's, so its only error is want of memory.
pub fn built_in_schema(alloc: Global) -> Result<Schema, AllocError>
    ensures { IfOk result (λ s. s ≡ built_in) }
{
    match read_schema(alloc, BUILT_IN) {
        Ok(schema) => Ok(schema),
        Err(_) => Err(AllocError),
    }
}

/// The schema of a text (RFC 4512 4.1): one description a line behind `attributeTypes: ` or `objectClasses: `; empty
/// lines and lines that begin with `#` are skipped. The first thing that is wrong is named with its line: the first
/// line that is no description (E12), else the first that names what is not known (E13), else the first of a loop of
/// SUPs (E14), else the first type without an EQUALITY rule (E15).
pub fn read_schema(alloc: Global, text: &str) -> Result<Schema, SchemaError>
    ensures found { IfOk result (λ s. schema_of_text text.now ≡ Ok s) }

    // A refusal is the definition's, its line too; want of memory is none.
    ensures refused { IfErr result (λ e. IsRefusalOf (schema_of_text text.now) e) }
{
    let text = read_text(alloc, text.as_bytes())?;
    schema_of_descriptions(alloc, &text)
}

/// The schema of descriptions.
fn schema_of_descriptions(alloc: Global, text: &SchemaText) -> Result<Schema, SchemaError>
    ensures found { IfOk result (λ s. schema_of_lines text.now ≡ Ok s) }
    ensures refused { IfErr result (λ e. IsRefusalOf (schema_of_lines text.now) e) }
{
    let text = IndexedText::of(alloc, text)?;
    schema_of_indexed(alloc, &text)
}

/// The schema of descriptions that are found by their names.
fn schema_of_indexed(alloc: Global, text: &IndexedText) -> Result<Schema, SchemaError>
    ensures found { IfOk result (λ s. schema_of_lines text.now ≡ Ok s) }
    ensures refused { IfErr result (λ e. IsRefusalOf (schema_of_lines text.now) e) }
{
    let types = types_of(alloc, text.types())?;
    let classes = classes_of(alloc, text)?;
    let object_class = judged(alloc, text, types.as_slice(), classes.as_slice())?;
    let schema = Schema::of_parts(alloc, types, classes, object_class)?;
    Ok(schema)
}

/// The text of the built-in schema means its table.
pub fn built_in_is_its_text()
    ensures { schema_of_text built_in_text ≡ Ok built_in }
{}
