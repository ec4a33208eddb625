//! Reads an input line by line as hex, and writes each response as a line.
ghost use Rattle.std.specs.Prelude.{◌≡◌, option_map, string_bytes, IfOk, IfErr, OnOk, IfSome};
ghost use Rattle.std.specs.Io.KnownBytes.{Appends};
ghost use Rattle.std.specs.Io.BufRead.{strip_last};
ghost use Rattle.local_directory.specs.Lines.{hex_line, IsNextLine};
ghost use Rattle.local_directory.specs.private.Lines.{hex_lines, IsLineOf, BeginsWith};
ghost use Rattle.local_directory.specs.Faults.{IsReadFault};
ghost use Rattle.local_directory.specs.private.Faults.{IsLineFault, IsFaultOf, IsCutOff};
ghost use Rattle.local_directory.specs.declared.line_fault.LineFault.TheVariants.{NoMemory};

use crate::line::Line;
use crate::line_fault::LineFault;
use ldap_session::{Responses, write_octets};
use std::alloc::Global;
use std::io::{BufRead, ErrorKind, Write};

/// The fault of a read that failed.
fn read_fault(kind: ErrorKind) -> LineFault
    ensures { IsReadFault result }
{
    if kind == ErrorKind::OutOfMemory {
        LineFault::NoMemory
    } else {
        LineFault::CannotRead
    }
}

/// The octets of the next line, without its end; `None` at the end of the input.
pub fn next_line<R: BufRead>(alloc: Global, input: &mut R) -> Result<Option<Vec<u8>>, LineFault>
    ensures ok { IfOk result (λ line. IfSome (R.remaining input.old)
        (λ xs. IsNextLine xs (option_map (λ v. v.items) line) (R.remaining input.new))) }
    ensures err { IfErr result IsReadFault }
{
    let mut line = Vec::new(alloc);
    match input.read_until(b'\n', &mut line) {
        Ok(0) => Ok(None),
        Ok(_) => Ok(Some(without_end(line))),
        Err(error) => Err(read_fault(error.kind())),
    }
}

/// The line without its end of LF or CRLF.
fn without_end(line: Vec<u8>) -> Vec<u8>
    ensures { result.items ≡ strip_last 13 (strip_last 10 line.items) }
{
    let mut line = line;
    if line.last() == Some(&b'\n') {
        line.pop();
    }
    if line.last() == Some(&b'\r') {
        line.pop();
    }
    line
}

/// What a line is that has no end; the line is named by its number, where it is no hex.
fn read_hex(alloc: Global, line: &[u8], number: u64) -> Result<Line, LineFault>
    ensures ok { IfOk result (λ read. IsLineOf line.now read) }
    ensures err { IfErr result (λ fault. IsFaultOf line.now number fault) }
{
    if line.is_empty() {
        return Ok(Line::Blank);
    }
    match hex::decode(alloc, line) {
        Ok(octets) => Ok(Line::Piece(octets)),
        Err(hex::FromHexError::OutOfMemory) => Err(LineFault::NoMemory),
        Err(_) => Err(LineFault::BadHexLine(number)),
    }
}

/// Reads the next line, whose number this is.
pub fn next_piece<R: BufRead>(alloc: Global, input: &mut R, number: u64) -> Result<Line, LineFault>
    ensures ok { IfOk result (λ line. IfSome (R.remaining input.old)
        (λ xs. BeginsWith xs line (R.remaining input.new))) }
    ensures err { IfErr result (λ fault. IfSome (R.remaining input.old) (λ xs. IsLineFault xs number fault)) }
{
    match next_line(alloc, input)? {
        Some(line) => read_hex(alloc, &line, number),
        None => Ok(Line::End),
    }
}

/// Octets as a line of lower-case hex.
fn line_of(alloc: Global, octets: &[u8]) -> Result<String, LineFault>
    ensures ok { IfOk result (λ line. string_bytes line ≡ hex_line octets.now) }
    ensures err { IfErr result (λ fault. fault ≡ NoMemory) }
{
    let mut line = hex::encode(alloc, octets)?;
    line.push('\n')?;
    Ok(line)
}

/// Writes octets as a line of lower-case hex.
fn write_line<W: Write>(alloc: Global, octets: &[u8], output: &mut W) -> Result<(), LineFault>
    ensures ok { OnOk result (Appends (W.contents output.old) (W.contents output.new) (hex_line octets.now)) }
    ensures err { IfErr result (λ fault. IsCutOff (W.contents output.old) (W.contents output.new)
        (hex_line octets.now) fault) }
{
    let line = line_of(alloc, octets)?;
    if write_octets(output, line.as_bytes()) {
        Ok(())
    } else {
        Err(LineFault::CannotWrite)
    }
}

/// Writes the octets of each response as a line; at an error, a front of these lines.
pub fn write_lines<W: Write>(
    alloc: Global,
    responses: &Responses,
    output: &mut W,
) -> Result<(), LineFault>
    ensures ok { OnOk result (Appends (W.contents output.old) (W.contents output.new) (hex_lines responses.now)) }
    ensures err { IfErr result (λ fault. IsCutOff (W.contents output.old) (W.contents output.new)
        (hex_lines responses.now) fault) }
{
    let mut rest = responses.octets();
    for length in responses.lengths() {
        let (response, behind) = rest.split_at(*length);
        match write_line(alloc, response, output) {
            Ok(()) => rest = behind,
            Err(fault) => return Err(fault),
        }
    }
    Ok(())
}
