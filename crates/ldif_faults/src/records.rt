//! Explains why a directory refuses the add of a record of LDIF, by the result code: which line of it, and what is
//! wrong there.
ghost use Rattle.std.specs.Prelude.{◌≡◌, ◌++◌, ◌-◌, [], IfOk, codes, map, option_map, slice_get, string_bytes};
ghost use Rattle.std.specs.Option.{unwrap_or};
ghost use Rattle.ldif.specs.Placing.{record_lines as lines_of_records};
ghost use Rattle.ldif.specs.Reading.{records_of};
ghost use Rattle.text_faults.specs.Names.{name_sentence};
ghost use Rattle.ldif_faults.specs.Placed as placed;
ghost use Rattle.ldif_faults.specs.Records.{told_above, told, all_read, records_in, nothing, placed_at, record_told};

use crate::classes::broken_class;
use crate::placed::{Placed, PlacedRecord, at_name, said_at_name};
use crate::values::{by_code, doubled, no_value, repeated, unknown_type};
use ldap_match::Schema;
use ldif::{LdifError, Record, read, record_lines};
use std::alloc::{AllocError, Global};
use std::marker::Model;
use text_faults::name_fault;

/// A name that is none.
fn invalid_name(alloc: Global, schema: &Schema, text: &str) -> Result<String, AllocError>
    ensures { IfOk result (λ s. string_bytes s ≡ codes "invalid name: " ++ name_sentence schema.now text.now) }
{
    let part = name_fault(alloc, schema, text)?;
    format!(in alloc; "invalid name: {part}")
}

/// A record that is refused with another code than 17 to 21.
fn told_above(
    alloc: Global,
    schema: &Schema,
    item: &PlacedRecord<'_>,
    code: u32,
) -> Result<Placed, AllocError>
    ensures { IfOk result (λ p. p ≡ told_above schema.now item.now code) }
{
    match code {
        32 => said_at_name(
            alloc,
            item,
            "the entry above this one has no record before it",
        ),
        34 => Ok(at_name(item, invalid_name(alloc, schema, item.name())?)),
        65 => broken_class(alloc, schema, item),
        68 => said_at_name(alloc, item, "a record before this one has the same name"),
        _ => by_code(alloc, item, code),
    }
}

/// A record that is refused with this code.
fn told(
    alloc: Global,
    schema: &Schema,
    item: &PlacedRecord<'_>,
    code: u32,
) -> Result<Placed, AllocError>
    ensures { IfOk result (λ p. p ≡ told schema.now item.now code) }
{
    match code {
        17 => unknown_type(alloc, schema, item),
        19 => repeated(alloc, schema, item),
        20 => doubled(alloc, schema, item),
        21 => no_value(alloc, schema, item),
        _ => told_above(alloc, schema, item, code),
    }
}

/// The records of a text; none, where it isn't LDIF.
fn all_read(alloc: Global, text: &[u8]) -> Result<Vec<Record>, AllocError>
    ensures { IfOk result (λ v. v.items ≡ all_read (records_of text.now)) }
{
    match read(alloc, text) {
        Ok(records) => Ok(records),
        Err(LdifError::BadLdif { .. }) => Ok(Vec::new(alloc)),
        Err(LdifError::NoMemory) => Err(AllocError),
    }
}

/// The records of a text with their lines, to explain which of them a directory refuses.
pub struct RecordFaults {
    records: Vec<Record>,
    places: Vec<Vec<usize>>,
}

// Not derived: see "What the gate takes" in docs/ARCHITECTURE.md.
impl Drop for RecordFaults {
    fn drop(self) {
        let RecordFaults {
            records: _,
            places: _,
        } = self;
    }
}

impl Model for RecordFaults {
    ghost use Rattle.std.specs.Prelude.{map};
    ghost use Rattle.ldif_faults.specs.Records.{RecordsModel};

    ghost Value = { RecordsModel };

    ghost view = { λ r. record { records = r.records.items; places = map (λ v. v.items) r.places.items } };
}

impl RecordFaults {
    /// The records of a text, which is read once. Fails only when it runs out of memory.
    pub fn of(alloc: Global, text: &[u8]) -> Result<RecordFaults, AllocError>
        ensures { IfOk result (λ r. r ≡ records_in text.now) }
    {
        Ok(RecordFaults {
            records: all_read(alloc, text)?,
            places: record_lines(alloc, text)?,
        })
    }

    /// The lines of the record of an index.
    fn place(&self, index: usize) -> &[usize]
        ensures { result.now ≡ unwrap_or (slice_get self.now.places index) [] }
    {
        match self.places.as_slice().get(index) {
            Some(place) => place.as_slice(),
            None => &[],
        }
    }

    /// What is wrong with the record of this number, counted from 1, whose add is refused with this code. Fails only
    /// when it runs out of memory.
    pub fn fault(
        &self,
        alloc: Global,
        schema: &Schema,
        number: u64,
        code: u32,
    ) -> Result<Placed, AllocError>
        ensures { IfOk result (λ p. p ≡ record_told schema.now self.now number code) }
    {
        let index = (number as usize).saturating_sub(1);
        match self.records.as_slice().get(index) {
            Some(record) => {
                let item = PlacedRecord::of(alloc, record, self.place(index))?;
                told(alloc, schema, &item, code)
            }
            None => {
                let nothing = Record::new(String::new(alloc), Vec::new(alloc));
                let item = PlacedRecord::of(alloc, &nothing, self.place(index))?;
                told(alloc, schema, &item, code)
            }
        }
    }
}
