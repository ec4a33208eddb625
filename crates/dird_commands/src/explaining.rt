//! What is refused was decided before; nothing here changes it.
ghost use Rattle.std.specs.Prelude.{◌≡◌};
ghost use Rattle.dird_commands.specs.Undone.{import_fault, export_fault, search_fault};

use crate::fault::Fault;
use crate::local::{MANAGER, SUFFIX, name_of_text};
use crate::refusal::Refusal;
use ldif_faults::{RecordFaults, hex_line_fault, ldif_fault};
use local_directory::{ExportError, ImportError, Schema, SearchError};
use schema_faults::{IndexRefusal, SchemaRefusal, index_fault, schema_fault};
use std::alloc::{AllocError, Global};
use text_faults::{code_word, filter_fault, name_fault, said, script_fault, shown};

/// The names that each schema has to have, those of the directory's root and of the manager.
const NAMES: &[(&str, &str)] = &[
    (
        "the schema lacks what the suffix dc=example,dc=com needs",
        SUFFIX,
    ),
    (
        "the schema lacks what the manager cn=admin,dc=example,dc=com needs",
        MANAGER,
    ),
];

/// What is wrong with a line of a named file.
fn in_file(
    alloc: Global,
    path: &str,
    line: usize,
    told: Result<String, AllocError>,
) -> Result<String, AllocError> {
    let path = shown(alloc, path.as_bytes())?;
    let told = told?;
    format!(in alloc; "{path} line {line}: {told}")
}

/// What is wrong with a line of the input.
fn in_input(
    alloc: Global,
    line: usize,
    told: Result<String, AllocError>,
) -> Result<String, AllocError> {
    let told = told?;
    format!(in alloc; "line {line}: {told}")
}

/// What is wrong with a word of the command line.
fn in_word(
    alloc: Global,
    word: &str,
    told: Result<String, AllocError>,
) -> Result<String, AllocError> {
    let told = told?;
    format!(in alloc; "{word}: {told}")
}

/// Which rule of schemas a number is of.
fn schema_rule(number: u32) -> Option<SchemaRefusal> {
    match number {
        12 => Some(SchemaRefusal::BadDescription),
        13 => Some(SchemaRefusal::UnknownName),
        14 => Some(SchemaRefusal::Loop),
        15 => Some(SchemaRefusal::NoEquality),
        _ => None,
    }
}

/// Which rule of index choices a number is of.
fn index_rule(number: u32) -> Option<IndexRefusal> {
    match number {
        12 => Some(IndexRefusal::BadDescription),
        13 => Some(IndexRefusal::UnknownName),
        16 => Some(IndexRefusal::NoRule),
        _ => None,
    }
}

/// The fault of a schema's text.
pub fn schema_refusal(alloc: Global, path: &str, text: &str, fault: Fault) -> Refusal
    ensures { result.fault ≡ fault }
{
    let Fault::Placed(number, place) = fault else {
        return Refusal::from(fault);
    };
    match schema_rule(number) {
        Some(rule) => {
            let told = schema_fault(alloc, text, rule, place);
            Refusal::with_explanation(fault, in_file(alloc, path, place, told))
        }
        None => Refusal::from(fault),
    }
}

/// The fault of an index choice's text.
pub fn index_refusal(
    alloc: Global,
    schema: &Schema,
    path: &str,
    text: &str,
    fault: Fault,
) -> Refusal
    ensures { result.fault ≡ fault }
{
    let Fault::Placed(number, place) = fault else {
        return Refusal::from(fault);
    };
    match index_rule(number) {
        Some(rule) => {
            let told = index_fault(alloc, schema, text, rule, place);
            Refusal::with_explanation(fault, in_file(alloc, path, place, told))
        }
        None => Refusal::from(fault),
    }
}

/// The fault of a name, which this word tells.
pub fn name_refusal(alloc: Global, schema: &Schema, word: &str, text: &str, fault: Fault) -> Refusal
    ensures { result.fault ≡ fault }
{
    match fault {
        Fault::BadName => {
            let told = name_fault(alloc, schema, text);
            Refusal::with_explanation(fault, in_word(alloc, word, told))
        }
        _ => Refusal::from(fault),
    }
}

/// What is wrong with a filter's text at a place.
fn filter_told(alloc: Global, text: &str, place: usize) -> Result<String, AllocError> {
    let told = filter_fault(alloc, text, place)?;
    format!(in alloc; "FILTER at {place}: {told}")
}

/// The fault of a filter's text.
pub fn filter_refusal(alloc: Global, text: &str, fault: Fault) -> Refusal
    ensures { result.fault ≡ fault }
{
    let told = match fault {
        Fault::Placed(_, place) => filter_told(alloc, text, place),
        Fault::TooDeep => said(alloc, "FILTER: more than 128 filters, one in another"),
        Fault::TooManyItems => said(alloc, "FILTER: more than 512 items and filters round them"),
        _ => return Refusal::from(fault),
    };
    Refusal::with_explanation(fault, told)
}

/// The fault of an LDIF text that is to become messages.
pub fn import_refusal(alloc: Global, text: &[u8], error: ImportError) -> Refusal
    ensures { result.fault ≡ import_fault error }
{
    let fault = Fault::from(error);
    let told = match error {
        ImportError::BadLdif { line, cause } => {
            in_input(alloc, line, ldif_fault(alloc, text, line, cause))
        }
        ImportError::TooLong => said(alloc, "a record is over 4294967295 octets long"),
        ImportError::TooManyRecords => said(alloc, "there are over 2147483647 records"),
        ImportError::NoMemory => return Refusal::from(fault),
    };
    Refusal::with_explanation(fault, told)
}

/// What the code says that a search ended with.
fn code_told(alloc: Global, number: u32) -> Result<String, AllocError> {
    let word = code_word(number);
    format!(in alloc; "the search ended without success: {word}")
}

/// The fault of lines of hex that are to become LDIF.
pub fn export_refusal(alloc: Global, text: &[u8], error: ExportError) -> Refusal
    ensures { result.fault ≡ export_fault error }
{
    let fault = Fault::from(error);
    let told = match error {
        ExportError::BadHexLine { line } => {
            in_input(alloc, line, hex_line_fault(alloc, text, line))
        }
        ExportError::Code { number } => code_told(alloc, number),
        ExportError::NoDoneMessage => said(
            alloc,
            "the input ends without the response that ends a search (searchResDone)",
        ),
        ExportError::BadMessage => said(
            alloc,
            "a line is no entry of a search (searchResEntry) that LDIF can show, nor its end",
        ),
        ExportError::NoMemory => return Refusal::from(fault),
    };
    Refusal::with_explanation(fault, told)
}

/// What is wrong with a record that is refused with a code.
pub fn record_told(
    alloc: Global,
    schema: &Schema,
    records: &RecordFaults,
    number: u64,
    code: u32,
) -> Result<String, AllocError> {
    let placed = records.fault(alloc, schema, number, code)?;
    let line = placed.line();
    let told = placed.sentence();
    format!(in alloc; "line {line}: {told}")
}

/// What is wrong with a record of a text that is refused with a code.
fn record_of_text_told(
    alloc: Global,
    schema: &Schema,
    text: &[u8],
    number: u64,
    code: u32,
) -> Result<String, AllocError> {
    let records = RecordFaults::of(alloc, text)?;
    record_told(alloc, schema, &records, number, code)
}

/// Why a search has no answer.
fn answer_told(
    alloc: Global,
    schema: &Schema,
    base: &str,
    number: u32,
) -> Result<String, AllocError> {
    match number {
        32 => said(alloc, "BASE: no entry has this name"),
        34 => in_word(alloc, "BASE", name_fault(alloc, schema, base)),
        _ => code_told(alloc, number),
    }
}

/// The fault of an LDIF file that is checked.
pub fn check_refusal(alloc: Global, path: &str, text: &[u8], error: SearchError) -> Refusal
    ensures { result.fault ≡ search_fault error }
{
    let told = match error {
        SearchError::BadLdif { line, cause } => {
            in_file(alloc, path, line, ldif_fault(alloc, text, line, cause))
        }
        SearchError::NoMemory => return Refusal::from(Fault::NoMemory),
        SearchError::Refused { .. } | SearchError::Code { .. } => {
            return Refusal::from(Fault::from(error));
        }
    };
    Refusal::with_explanation(Fault::from(error), told)
}

/// The fault of a search of the entries of an LDIF text.
pub fn search_refusal(
    alloc: Global,
    schema: &Schema,
    text: &[u8],
    base: &str,
    error: SearchError,
) -> Refusal
    ensures { result.fault ≡ search_fault error }
{
    let told = match error {
        SearchError::BadLdif { line, cause } => {
            in_input(alloc, line, ldif_fault(alloc, text, line, cause))
        }
        SearchError::Refused { number, code } => {
            record_of_text_told(alloc, schema, text, number, code)
        }
        SearchError::Code { number } => answer_told(alloc, schema, base, number),
        SearchError::NoMemory => return Refusal::from(Fault::NoMemory),
    };
    Refusal::with_explanation(Fault::from(error), told)
}

/// The octets of the line of this number, counted from 1.
fn line_of(lines: &[Vec<u8>], number: u64) -> &[u8] {
    match lines.get((number as usize).saturating_sub(1)) {
        Some(line) => line.as_slice(),
        None => &[],
    }
}

/// The fault of a lab script.
pub fn script_refusal(alloc: Global, lines: &[Vec<u8>], fault: Fault) -> Refusal
    ensures { result.fault ≡ fault }
{
    match fault {
        Fault::BadLine(number) => {
            let told = script_fault(alloc, line_of(lines, number), number);
            Refusal::with_explanation(fault, in_input(alloc, number as usize, told))
        }
        _ => Refusal::from(fault),
    }
}

/// What is wrong with a line of hex that isn't kept.
fn hex_told(alloc: Global, number: u64) -> Result<String, AllocError> {
    format!(in alloc; "line {number}: expected hexadecimal digits, two for each octet")
}

/// The fault of a session over lines.
pub fn session_refusal(alloc: Global, fault: Fault) -> Refusal
    ensures { result.fault ≡ fault }
{
    let told = match fault {
        Fault::BadHexLine(number) => hex_told(alloc, number),
        Fault::TooLong => said(alloc, "a response is over 4294967295 octets long"),
        Fault::CannotRead => said(alloc, "standard input: a read failed"),
        Fault::CannotWrite => said(alloc, "standard output: a write failed"),
        _ => return Refusal::from(fault),
    };
    Refusal::with_explanation(fault, told)
}

/// The fault of a session over a directory of this schema: of its lines, or of the names that the directory begins
/// with.
pub fn opening_refusal(alloc: Global, schema: &Schema, fault: Fault) -> Refusal
    ensures { result.fault ≡ fault }
{
    let Fault::BadName = fault else {
        return session_refusal(alloc, fault);
    };
    for (word, name) in NAMES {
        if is_bad(alloc, schema, name) {
            return name_refusal(alloc, schema, word, name, fault);
        }
    }
    Refusal::from(fault)
}

/// Whether a text is no name under a schema.
fn is_bad(alloc: Global, schema: &Schema, text: &str) -> bool {
    name_of_text(alloc, schema, text).is_err()
}
