//! Reads the records of a text, or names the first line that is wrong (E19).

ghost use Rattle.std.specs.Prelude.{◌≡◌, Ok, IfOk, IfErr, OnOk, OnErr, string_bytes};
ghost use Rattle.ldif.specs.Reading as specs;
ghost use Rattle.ldif.specs.Says.{line_says};
ghost use Rattle.ldif.specs.RoundTrip.{RecordsReturn};
ghost use Rattle.ldif.specs.Content.{RecordsAreOfText};
ghost use Rattle.ldif.specs.Faults.{IsLinesFault, IsReadFault};
ghost use Rattle.ldif.specs.private.Faults.{IsLineFault};

use crate::fault::LdifError;
use crate::lines::{Line, lines_of};
use crate::reading_state::Reading;
use crate::record::Record;
use crate::saying::line_said;
use std::alloc::Global;

/// Takes one more line. An `Err` keeps the whole records; the one that stands open may be gone.
fn put_line(alloc: Global, reading: &mut Reading, line: &Line) -> Result<(), LdifError>
    ensures taken { OnOk result (specs.after_line reading.old (line_says line.now.text) ≡ Ok reading.new) }
    ensures refused { IfErr result
        (λ e. IsLineFault e (specs.after_line reading.old (line_says line.now.text)) line.now.number) }
    ensures err { OnErr result (reading.new.done ≡ reading.old.done) }
{
    let said = line_said(alloc, line.text())?;
    reading.put(alloc, said, line.number())
}

/// The records of lines.
fn read_lines(alloc: Global, lines: &[Line]) -> Result<Vec<Record>, LdifError>
    ensures found { IfOk result (λ v. specs.read_from specs.nothing_read lines.now ≡ Ok v.items) }
    ensures refused { IfErr result (λ e. IsLinesFault e (specs.read_from specs.nothing_read lines.now)) }
{
    let mut reading = Reading::new(alloc);
    for line in lines {
        put_line(alloc, &mut reading, line)?;
    }
    Ok(reading.finish()?)
}

/// The records of a text (RFC 2849). Lines end by LF or CRLF; one that begins with a space continues the one before it;
/// comments are skipped. `E19` with the first line that is wrong, counted from 1, a folded one as its first part, and
/// the cause.
pub fn read(alloc: Global, octets: &[u8]) -> Result<Vec<Record>, LdifError>
    // What is read is the records of the text.
    ensures found { IfOk result (λ v. specs.records_of octets.now ≡ Ok v.items) }
    // E19 comes exactly where the definition refuses, with its line and cause; the only other error is want of memory.
    ensures refused { IfErr result (λ e. IsReadFault e octets.now) }
{
    let lines = lines_of(alloc, octets)?;
    read_lines(alloc, lines.as_slice())
}

/// What is written is read back: the records of the written form of records are those records, where each name is text
/// and each type is a description other than `dn`, `changetype` and `control`, in any case.
pub fn written_is_read_back()
    ensures { RecordsReturn }
{}

/// The records that are read of a text are those that its lines are by the grammar, and no others.
pub fn records_are_of_text()
    ensures { RecordsAreOfText }
{}
