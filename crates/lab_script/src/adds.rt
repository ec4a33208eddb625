//! The entry that an add's text writes, and the name of a delete.

ghost use Rattle.std.specs.Prelude.{◌≡◌, false, map, nat_eq, true, IfOk, IsErrOf, string_bytes};
ghost use Rattle.std.specs.List.{slice_split};
ghost use Rattle.std.specs.Str.{is_utf8};
ghost use Rattle.lab_script.specs.Updates as updates;

use crate::cuts::{behind_spaces, cut_pair, cut_text, text_of};
use crate::text_fault::TextError;
use ldif::{AttributeValue, Record};
use std::alloc::{AllocError, Global};

/// A name, which is UTF-8.
pub fn name_of(alloc: Global, octets: &[u8]) -> Result<String, TextError>
    ensures found { IfOk result (λ name. (is_utf8 octets.now ≡ true) × (string_bytes name ≡ octets.now)) }
    ensures bad { IsErrOf result TextError.BadText → is_utf8 octets.now ≡ false }
{
    match text_of(octets) {
        Some(text) => Ok(String::from_str(alloc, text)?),
        None => Err(TextError::BadText),
    }
}

/// The line of a type and a value.
fn line_of(alloc: Global, word: &[u8], value: &[u8]) -> Result<AttributeValue, TextError>
    ensures found { IfOk result (λ v. updates.line_of (record { front = word.now; behind = value.now }) ≡ Some v) }
    ensures bad { IsErrOf result TextError.BadText → updates.line_of (record { front = word.now; behind = value.now })
        ≡ None }
{
    let description = name_of(alloc, word)?;
    let octets = Vec::from_slice(alloc, value)?;
    Ok(AttributeValue::new(description, octets))
}

/// The line that a piece writes.
fn line_in(alloc: Global, piece: &[u8]) -> Result<AttributeValue, TextError>
    ensures found { IfOk result (λ v. Some v ≡ updates.line_in piece.now) }
    ensures bad { IsErrOf result TextError.BadText → updates.line_in piece.now ≡ None }
{
    match cut_pair(piece) {
        Some(pair) => line_of(alloc, pair.front, behind_spaces(pair.behind)),
        None => Err(TextError::BadText),
    }
}

/// The pieces of a text between bars.
fn pieces_of(alloc: Global, text: &[u8]) -> Result<Vec<&[u8]>, AllocError>
    ensures { IfOk result (λ v. map (λ x. x.now) v.items ≡ slice_split (nat_eq 124) text.now) }
{
    text.split(|octet| b'|' == *octet).collect(alloc)
}

#[tactic(auto, using(crate::proofs::Pieces::line_more, crate::proofs::Pieces::line_none, crate::proofs::OneByOne::all_read))]
/// The lines between bars.
fn lines_in(alloc: Global, text: &[u8]) -> Result<Vec<AttributeValue>, TextError>
    ensures found { IfOk result (λ vs. Some vs.items ≡ updates.lines_in text.now) }
    ensures bad { IsErrOf result TextError.BadText → updates.lines_in text.now ≡ None }
{
    let pieces = pieces_of(alloc, text)?;
    let mut lines = Vec::new(alloc);
    for piece in &pieces {
        lines.push(line_in(alloc, piece)?)?;
    }
    Ok(lines)
}

/// An entry without lines.
fn record_alone(alloc: Global, name: &[u8]) -> Result<Record, TextError>
    ensures found { IfOk result (λ r. Some r ≡ updates.record_cut name.now None) }
    ensures bad { IsErrOf result TextError.BadText → updates.record_cut name.now None ≡ None }
{
    let name = name_of(alloc, name)?;
    Ok(Record::new(name, Vec::new(alloc)))
}

/// An entry with lines.
fn record_with(alloc: Global, name: &[u8], lines: &[u8]) -> Result<Record, TextError>
    ensures found { IfOk result (λ r. Some r ≡ updates.record_with name.now (updates.lines_in lines.now)) }
    ensures bad { IsErrOf result TextError.BadText → updates.record_with name.now (updates.lines_in lines.now) ≡ None }
{
    let name = name_of(alloc, name)?;
    let lines = lines_in(alloc, lines)?;
    Ok(Record::new(name, lines))
}

/// The entry that a text writes: its name before the first bar, its lines behind it.
pub fn record_in(alloc: Global, text: &[u8]) -> Result<Record, TextError>
    ensures found { IfOk result (λ r. Some r ≡ updates.record_in text.now) }
    ensures bad { IsErrOf result TextError.BadText → updates.record_in text.now ≡ None }
{
    match cut_text(b'|', text) {
        Some(parts) => record_with(alloc, parts.front, parts.behind),
        None => record_alone(alloc, text),
    }
}
