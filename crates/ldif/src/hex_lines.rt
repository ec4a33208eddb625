//! Writes octets as a line of hex, and reads such lines.

ghost use Rattle.std.specs.Prelude.{◌≡◌, ◌++◌, ℕ, List, Result, map, string_bytes, IfOk, IfErr, OnOk, OnErr};
ghost use Rattle.std.specs.Option.{option_map};
ghost use Rattle.std.specs.Result.{result_ok};
ghost use Rattle.hex.specs.Hex.{decode_of};
ghost use Rattle.ldif.specs.Lines as lines;
ghost use Rattle.ldif.specs.HexLines as specs;
ghost use Rattle.ldif.specs.private.HexFaults.{IsHexFault, IsLineFault};

use crate::lines::{line_parts, without_return};
use crate::refusals::ExportError;
use std::alloc::{AllocError, Global};

/// Octets as a line of lower-case hex.
fn line_of(alloc: Global, octets: &[u8]) -> Result<String, AllocError>
    ensures { IfOk result (λ line. string_bytes line ≡ specs.hex_line octets.now) }
{
    let mut line = hex::encode(alloc, octets)?;
    line.push('\n')?;
    Ok(line)
}

/// Puts octets as a line of lower-case hex. An `Err` puts nothing.
pub fn put_hex_line(alloc: Global, octets: &[u8], out: &mut Vec<u8>) -> Result<(), AllocError>
    ensures ok { OnOk result (out.new.items ≡ out.old.items ++ specs.hex_line octets.now) }
    ensures err { OnErr result (out.new.items ≡ out.old.items) }
{
    let line = line_of(alloc, octets)?;
    out.extend_from_slice(line.as_bytes())?;
    Ok(())
}

/// The octets that a line spells; none, where it is no hex.
fn octets_of(alloc: Global, line: &[u8]) -> Result<Option<Vec<u8>>, AllocError>
    ensures { IfOk result (λ o. option_map (λ v. v.items) o ≡ result_ok (decode_of line.now)) }
{
    match hex::decode(alloc, line) {
        Ok(octets) => Ok(Some(octets)),
        Err(hex::FromHexError::OutOfMemory) => Err(AllocError),
        Err(_) => Ok(None),
    }
}

/// Puts the octets of the line of a number; those of an empty line are none.
fn put_line(
    alloc: Global,
    number: usize,
    line: &[u8],
    messages: &mut Vec<Vec<u8>>,
) -> Result<(), ExportError>
    ensures taken { OnOk result ((rest : Result (List (List ℕ)) ℕ) →
        specs.after (map (λ v. v.items) messages.new.items) rest
        ≡ specs.after (map (λ v. v.items) messages.old.items) (specs.line_then number line.now rest)) }
    ensures refused { IfErr result (λ e. (rest : Result (List (List ℕ)) ℕ) →
        IsLineFault e (specs.line_then number line.now rest)) }
{
    if line.is_empty() {
        return Ok(());
    }
    match octets_of(alloc, line)? {
        Some(octets) => {
            messages.push(octets)?;
            Ok(())
        }
        None => Err(ExportError::BadHexLine { line: number }),
    }
}

/// The octets that lines spell.
fn octets_of_all(alloc: Global, parts: &[&[u8]]) -> Result<Vec<Vec<u8>>, ExportError>
    ensures found { IfOk result (λ v. specs.octets_from 1 (map lines.without_return (map (λ x. x.now) parts.now)) ≡
        Ok (map (λ x. x.items) v.items)) }
    ensures refused { IfErr result
        (λ e. IsLineFault e (specs.octets_from 1 (map lines.without_return (map (λ x. x.now) parts.now)))) }
{
    let mut messages = Vec::new(alloc);
    for (index, part) in parts.iter().enumerate() {
        put_line(alloc, index + 1, without_return(part), &mut messages)?;
    }
    Ok(messages)
}

/// The octets that the lines of a text spell, one message a line that isn't empty.
pub fn octets_of_lines(alloc: Global, text: &[u8]) -> Result<Vec<Vec<u8>>, ExportError>
    ensures found { IfOk result (λ v. specs.octets_of_lines text.now ≡ Ok (map (λ x. x.items) v.items)) }
    ensures refused { IfErr result (λ e. IsHexFault e text.now) }
{
    let parts = line_parts(alloc, text)?;
    octets_of_all(alloc, parts.as_slice())
}
