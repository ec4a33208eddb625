//! Makes records of the entries that a search shows.

ghost use Rattle.std.specs.Prelude.{◌≡◌, ◌++◌, map, IfOk, OnOk};
ghost use Rattle.ldap_msg.specs.View.{attribute_view, entry_view};
ghost use Rattle.ldif.specs.Entries as entries;

use crate::record::{AttributeValue, Record};
use ldap_msg::{PartialAttribute, SearchResultEntry};
use std::alloc::{AllocError, Global};

/// A line.
fn line_of(alloc: Global, description: &str, octets: &[u8]) -> Result<AttributeValue, AllocError>
    ensures { IfOk result (λ v. v ≡ record { description = description.now; octets = octets.now }) }
{
    let description = String::from_str(alloc, description)?;
    Ok(AttributeValue::new(description, Vec::from_slice(alloc, octets)?))
}

/// Puts a line for each value of a description.
fn put_lines(
    alloc: Global,
    description: &str,
    given: &[Vec<u8>],
    values: &mut Vec<AttributeValue>,
) -> Result<(), AllocError>
    ensures { OnOk result (values.new.items ≡ values.old.items ++ entries.lines_with description.now
        (map (λ v. v.items) given.now)) }
{
    for octets in given {
        values.push(line_of(alloc, description, octets)?)?;
    }
    Ok(())
}

/// The lines of attributes.
fn lines_of_all(
    alloc: Global,
    attributes: &[PartialAttribute],
) -> Result<Vec<AttributeValue>, AllocError>
    ensures { IfOk result (λ v. v.items ≡ entries.lines_of_all (map attribute_view attributes.now)) }
{
    let mut values = Vec::new(alloc);
    for attribute in attributes {
        put_lines(
            alloc,
            &attribute.description,
            &attribute.values,
            &mut values,
        )?;
    }
    Ok(values)
}

/// The record of an entry that a search shows: its name, and its attributes' values in their order, each with its
/// attribute's description. An attribute without values gives no line. Fails only for want of memory.
pub fn record_of(alloc: Global, entry: &SearchResultEntry) -> Result<Record, AllocError>
    ensures { IfOk result (λ r. r ≡ entries.record_of (entry_view entry.now)) }
{
    let name = String::from_str(alloc, &entry.object_name)?;
    Ok(Record::new(name, lines_of_all(alloc, &entry.attributes)?))
}

/// The records of entries, in their order. Fails only for want of memory.
pub fn records_of(alloc: Global, shown: &[SearchResultEntry]) -> Result<Vec<Record>, AllocError>
    ensures { IfOk result (λ v. v.items ≡ map entries.record_of (map entry_view shown.now)) }
{
    let mut records = Vec::new(alloc);
    for entry in shown {
        records.push(record_of(alloc, entry)?)?;
    }
    Ok(records)
}
