//! Puts the lines of a record beside its values, and a line beside a sentence.
ghost use Rattle.std.specs.Prelude.{◌≡◌, IfOk, slice_index_or, string_bytes};
ghost use Rattle.ldif_faults.specs.Placed as placed;

use ldif::{AttributeValue, Record};
use std::alloc::{AllocError, Global};
use std::marker::Model;
use text_faults::said;

/// A sentence, and the line that it is of.
pub struct Placed {
    line: usize,
    sentence: String,
}

// Not derived: see "What the gate takes" in docs/ARCHITECTURE.md.
impl Drop for Placed {
    fn drop(self) {
        let Placed {
            line: _,
            sentence: _,
        } = self;
    }
}

impl Model for Placed {
    ghost use Rattle.std.specs.Prelude.{string_bytes};
    ghost use Rattle.ldif_faults.specs.Placed.{Told};

    ghost Value = { Told };

    ghost view = { λ p. record { line = p.line; sentence = string_bytes p.sentence } };
}

impl Placed {
    /// A sentence of a line.
    pub fn new(line: usize, sentence: String) -> Placed
        ensures { result ≡ record { line = line; sentence = string_bytes sentence } }
    {
        Placed { line, sentence }
    }

    /// The line's number, counted from 1.
    pub fn line(&self) -> usize
        ensures { result ≡ self.now.line }
    {
        self.line
    }

    /// The sentence.
    pub fn sentence(&self) -> &str
        ensures { result.now ≡ self.now.sentence }
    {
        self.sentence.as_str()
    }
}

/// A value, with its line.
pub struct ValueLine<'a> {
    number: usize,
    value: &'a AttributeValue,
}

// Not derived: see "What the gate takes" in docs/ARCHITECTURE.md.
impl<'a> Drop for ValueLine<'a> {
    fn drop(self) {
        let ValueLine {
            number: _,
            value: _,
        } = self;
    }
}

impl<'a> Model for ValueLine<'a> {
    ghost use Rattle.ldif_faults.specs.Placed.{LineModel};

    ghost Value = { LineModel };

    ghost view = { λ l. record {
      number = l.number;
      description = l.value.now.description;
      octets =
          l.value.now.octets;
    } };
}

impl<'a> ValueLine<'a> {
    /// A value, and the number of its line.
    fn new(number: usize, value: &'a AttributeValue) -> ValueLine<'a>
        ensures { result ≡ record { number = number; description = value.now.description; octets = value.now.octets } }
    {
        ValueLine { number, value }
    }

    /// The line's number, counted from 1.
    pub fn number(&self) -> usize
        ensures { result ≡ self.now.number }
    {
        self.number
    }

    /// The attribute description.
    pub fn description(&self) -> &[u8]
        ensures { result.now ≡ self.now.description }
    {
        self.value.description().as_bytes()
    }

    /// The octets of the value.
    pub fn octets(&self) -> &[u8]
        ensures { result.now ≡ self.now.octets }
    {
        self.value.octets()
    }
}

/// The line of an index among those of a record; 0, where it has none.
fn line_of(place: &[usize], index: usize) -> usize
    ensures { result ≡ slice_index_or place.now index 0 }
{
    place.get(index).copied().unwrap_or(0)
}

/// Values with their lines.
fn value_lines<'a>(
    alloc: Global,
    values: &'a [AttributeValue],
    place: &[usize],
) -> Result<Vec<ValueLine<'a>>, AllocError>
    ensures { IfOk result (λ v. v.items ≡ placed.lines_from place.now 1 values.now) }
{
    let mut lines = Vec::new(alloc);
    for (index, value) in values.iter().enumerate() {
        lines.push(ValueLine::new(line_of(place, index + 1), value))?;
    }
    Ok(lines)
}

/// A record, with its lines.
pub struct PlacedRecord<'a> {
    number: usize,
    name: &'a str,
    lines: Vec<ValueLine<'a>>,
}

// Not derived: see "What the gate takes" in docs/ARCHITECTURE.md.
impl<'a> Drop for PlacedRecord<'a> {
    fn drop(self) {
        let PlacedRecord {
            number: _,
            name: _,
            lines: _,
        } = self;
    }
}

impl<'a> Model for PlacedRecord<'a> {
    ghost use Rattle.ldif_faults.specs.Placed.{PlacedModel};

    ghost Value = { PlacedModel };

    ghost view = { λ r. record { number = r.number; name = r.name.now; lines = r.lines.items } };
}

impl<'a> PlacedRecord<'a> {
    /// A record and its lines: that of its name, then those of its values.
    pub fn of(
        alloc: Global,
        item: &'a Record,
        place: &[usize],
    ) -> Result<PlacedRecord<'a>, AllocError>
        ensures { IfOk result (λ r. r ≡ placed.placed item.now place.now) }
    {
        Ok(PlacedRecord {
            number: line_of(place, 0),
            name: item.name(),
            lines: value_lines(alloc, item.values(), place)?,
        })
    }

    /// The line of its name.
    pub fn number(&self) -> usize
        ensures { result ≡ self.now.number }
    {
        self.number
    }

    /// Its name.
    pub fn name(&self) -> &str
        ensures { result.now ≡ self.now.name }
    {
        self.name
    }

    /// Its values, with their lines.
    pub fn lines(&self) -> &[ValueLine<'a>]
        ensures { result.now ≡ self.now.lines }
    {
        self.lines.as_slice()
    }
}

/// A sentence of the whole record.
pub fn at_name(item: &PlacedRecord<'_>, sentence: String) -> Placed
    ensures { result ≡ placed.at_name item.now (string_bytes sentence) }
{
    Placed::new(item.number(), sentence)
}

/// A sentence of the whole record that shows no word of it.
pub fn said_at_name(
    alloc: Global,
    item: &PlacedRecord<'_>,
    sentence: &str,
) -> Result<Placed, AllocError>
    ensures { IfOk result (λ p. p ≡ placed.at_name item.now sentence.now) }
{
    Ok(at_name(item, said(alloc, sentence)?))
}

/// A sentence of a value.
pub fn at_line(line: &ValueLine<'_>, sentence: String) -> Placed
    ensures { result ≡ placed.at_line line.now (string_bytes sentence) }
{
    Placed::new(line.number(), sentence)
}
