//! Checks an LDIF file before it is served: prints each record that a directory would refuse, with its line, its result
//! code and the reason.
ghost use Rattle.std.specs.Prelude.{◌≡◌, IfOk, IfErr};
ghost use Rattle.std.specs.Arc.{arc_value};
ghost use Rattle.dird_commands.specs.Begun.{empty_under};
ghost use Rattle.local_directory.specs.Checked.{IsChecked};
ghost use Rattle.dird_commands.specs.private.Checked.{verdict, IsVerdict};
ghost use Rattle.dird_commands.specs.private.Undone.{IsCheckCause, IsUnchecked};

use crate::explaining::{check_refusal, record_told};
use crate::opening::EmptyDirectory;
use crate::refusal::Refusal;
use crate::status::ExitStatus;
use crate::texts::write_out;
use ldif_faults::RecordFaults;
use local_directory::{Checked, RefusedRecord, Schema, check_text};
use std::alloc::{AllocError, Global};
use std::io::Write;
use text_faults::{code_word, shown};

/// How many refused records are printed; the others are counted.
const MOST: usize = 100;

/// The line that is printed of a refused record.
fn line_of(
    alloc: Global,
    schema: &Schema,
    path: &str,
    records: &RecordFaults,
    refused: RefusedRecord,
) -> Result<String, AllocError> {
    let RefusedRecord { number, code } = refused;
    let path = shown(alloc, path.as_bytes())?;
    let word = code_word(code);
    let told = record_told(alloc, schema, records, number, code)?;
    format!(in alloc; "{path} {told} (code {code}, {word})\n")
}

/// The lines of the refused records, as far as they are printed.
fn lines_of(
    alloc: Global,
    schema: &Schema,
    path: &str,
    text: &[u8],
    refused: &[RefusedRecord],
) -> Result<String, AllocError> {
    let mut lines = String::new(alloc);
    if refused.is_empty() {
        return Ok(lines);
    }
    let records = RecordFaults::of(alloc, text)?;
    for record in refused.iter().take(MOST) {
        let line = line_of(alloc, schema, path, &records, *record)?;
        lines.push_str(&line)?;
    }
    Ok(lines)
}

/// What is printed: the lines of refused records, and how many records there are and how many of them are refused.
fn report(
    alloc: Global,
    schema: &Schema,
    path: &str,
    text: &[u8],
    checked: &Checked,
) -> Result<String, AllocError> {
    let count = checked.count;
    let refused = checked.refused.len();
    let lines = lines_of(alloc, schema, path, text, &checked.refused)?;
    format!(in alloc; "{lines}{count} records, {refused} refused\n")
}

/// Done where nothing is refused.
fn verdict_on(refused: &[RefusedRecord]) -> ExitStatus
    ensures { result ≡ verdict refused.now }
{
    match refused {
        [] => ExitStatus::Done,
        [..] => ExitStatus::Refused,
    }
}

/// What a directory without entries refuses of a text.
fn check_records(
    alloc: Global,
    empty: &EmptyDirectory,
    path: &str,
    text: &[u8],
) -> Result<Checked, Refusal>
    ensures err { IfErr result (λ refusal. IsCheckCause refusal.fault text.now) }
    ensures ok { IfOk result (λ c. IsChecked (empty_under (arc_value empty.now.schema) empty.now.suffix) text.now
        c.count c.refused.items) }
{
    let store = empty.store(alloc)?;
    match check_text(alloc, store, text) {
        Ok(checked) => Ok(checked),
        Err(error) => Err(check_refusal(alloc, path, text, error)),
    }
}

/// Prints what a directory without entries refuses of the text of a file of this name; the status says whether it
/// refuses anything.
pub fn check_file<W: Write>(
    alloc: Global,
    empty: &EmptyDirectory,
    path: &str,
    text: &[u8],
    output: &mut W,
) -> Result<ExitStatus, Refusal>
    ensures ok { IfOk result (λ s. IsVerdict (empty_under (arc_value empty.now.schema) empty.now.suffix) text.now s) }
    // Nothing is written but where the output can't be written; which refusal it is.
    ensures err { IfErr result (λ refusal. IsUnchecked refusal.fault text.now (W.contents output.old)
        (W.contents output.new)) }
{
    let checked = match check_records(alloc, empty, path, text) {
        Ok(checked) => checked,
        Err(refusal) => return Err(refusal),
    };
    let told = match report(alloc, &empty.schema, path, text, &checked) {
        Ok(told) => told,
        Err(error) => return Err(Refusal::from(error)),
    };
    match write_out(alloc, told.as_bytes(), output) {
        Ok(()) => Ok(verdict_on(&checked.refused)),
        Err(refusal) => Err(refusal),
    }
}
