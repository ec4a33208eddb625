//! Explains why a line of hexadecimal digits spells no octets.
ghost use Rattle.std.specs.Prelude.{◌≡◌, IfOk, string_bytes};
ghost use Rattle.ldif_faults.specs.HexLines.{bad_octet, hex_sentence, hex_sentence_of, line_at};

use ldif::{line_parts, without_return};
use std::alloc::{AllocError, Global};
use text_faults::{octet_shown, said};

/// What is wrong with a line.
fn line_fault(alloc: Global, line: &[u8]) -> Result<String, AllocError>
    ensures { IfOk result (λ s. string_bytes s ≡ hex_sentence 1 line.now) }
{
    for (index, octet) in line.iter().enumerate() {
        if !octet.is_ascii_hexdigit() {
            return misplaced(alloc, *octet, index + 1);
        }
    }
    said(
        alloc,
        "expected two digits for each octet, found an odd number of them",
    )
}

/// An octet that is no hexadecimal digit.
fn misplaced(alloc: Global, octet: u8, column: usize) -> Result<String, AllocError>
    ensures { IfOk result (λ s. string_bytes s ≡ bad_octet octet column) }
{
    let octet = octet_shown(alloc, octet)?;
    format!(in alloc; "'{octet}' at column {column} is no hexadecimal digit")
}

/// What is wrong with the line of this number, counted from 1, which spells no octets.
pub fn hex_line_fault(alloc: Global, text: &[u8], line: usize) -> Result<String, AllocError>
    ensures { IfOk result (λ s. string_bytes s ≡ hex_sentence_of (line_at text.now line)) }
{
    let parts = line_parts(alloc, text)?;
    match parts.as_slice().get(line.saturating_sub(1)) {
        Some(line) => line_fault(alloc, without_return(*line)),
        None => said(alloc, "expected hexadecimal digits, two for each octet"),
    }
}
