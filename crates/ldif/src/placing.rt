//! Finds the lines of the records of a text.

ghost use Rattle.std.specs.Prelude.{◌≡◌, ◌++◌, ◌∷◌, [], None, map, nat_eq, option_map, option_to_list, slice_get, IfOk, OnOk};
ghost use Rattle.std.specs.List.{filter};
ghost use Rattle.ldif.specs.Placing as placing;
ghost use Rattle.ldif.specs.private.Said.{said_of};

use crate::lines::{Line, lines_of};
use crate::saying::{Said, line_said};
use std::alloc::{AllocError, Global};

/// Whether a line ends the record before it.
fn ends_record(said: &Said) -> bool
    ensures { result ≡ placing.ends_record (said_of said.now) }
{
    match said {
        Said::Blank | Said::Name(_) => true,
        Said::Comment | Said::Value(_) | Said::Encoded(_) | Said::Wrong(_) => false,
    }
}

/// The line of a name, as the first of a record.
fn first_of(alloc: Global, number: usize) -> Result<Vec<usize>, AllocError>
    ensures { IfOk result (λ v. v.items ≡ number ∷ []) }
{
    let mut place = Vec::new(alloc);
    place.push(number)?;
    Ok(place)
}

/// The open record's lines with one more.
fn with_line(current: Option<Vec<usize>>, number: usize) -> Result<Option<Vec<usize>>, AllocError>
    ensures { IfOk result (λ o. option_map (λ v. v.items) o ≡ option_map (λ p. p ++ number ∷ [])
        (option_map (λ v. v.items) current)) }
{
    match current {
        Some(mut place) => {
            place.push(number)?;
            Ok(Some(place))
        }
        None => Ok(None),
    }
}

/// The lines of the open record, if one is, behind one more line of this number.
fn place_after(
    alloc: Global,
    current: Option<Vec<usize>>,
    said: &Said,
    number: usize,
) -> Result<Option<Vec<usize>>, AllocError>
    ensures { IfOk result (λ o. option_map (λ v. v.items) o ≡ placing.place_after (option_map (λ v. v.items) current)
        (said_of said.now) number) }
{
    match said {
        Said::Blank => Ok(None),
        Said::Comment | Said::Wrong(_) => Ok(current),
        Said::Name(_) => Ok(Some(first_of(alloc, number)?)),
        Said::Value(_) | Said::Encoded(_) => with_line(current, number),
    }
}

/// Puts the lines of a record, if one was open, behind those of others.
fn close(places: &mut Vec<Vec<usize>>, current: Option<Vec<usize>>) -> Result<(), AllocError>
    ensures { OnOk result (map (λ v. v.items) places.new.items ≡ map (λ v. v.items) places.old.items ++ option_to_list
        (option_map (λ v. v.items) current)) }
{
    if let Some(place) = current {
        places.push(place)?;
    }
    Ok(())
}

/// The lines of each record that lines have.
fn places_of(alloc: Global, lines: &[Line]) -> Result<Vec<Vec<usize>>, AllocError>
    ensures { IfOk result (λ v. map (λ p. p.items) v.items ≡ placing.places_from None lines.now) }
{
    let mut places = Vec::new(alloc);
    let mut current = None;
    for line in lines {
        let said = line_said(alloc, line.text())?;
        let before = current.take();
        if ends_record(&said) {
            close(&mut places, before)?;
            current = place_after(alloc, None, &said, line.number())?;
        } else {
            current = place_after(alloc, before, &said, line.number())?;
        }
    }
    close(&mut places, current)?;
    Ok(places)
}

/// The lines of each record of a text that is LDIF, counted from 1, a folded one as its first part: first that of its
/// name, then those of its values, in their order. Fails only when it runs out of memory.
pub fn record_lines(alloc: Global, text: &[u8]) -> Result<Vec<Vec<usize>>, AllocError>
    ensures { IfOk result (λ v. map (λ p. p.items) v.items ≡ placing.record_lines text.now) }
{
    let lines = lines_of(alloc, text)?;
    places_of(alloc, lines.as_slice())
}

/// The text of the line of this number; nothing, where there is none.
fn text_at(lines: &[Line], number: usize) -> &[u8]
    ensures { result.now ≡ placing.text_in (slice_get (filter (λ l. nat_eq l.number number) lines.now) 0) }
{
    for line in lines {
        if line.number() == number {
            return line.text();
        }
    }
    &[]
}

/// The line of a text that begins at this number, unfolded; nothing, where none does. Fails only when it runs out of
/// memory.
pub fn line_at(alloc: Global, text: &[u8], number: usize) -> Result<Vec<u8>, AllocError>
    ensures { IfOk result (λ v. v.items ≡ placing.line_at text.now number) }
{
    let lines = lines_of(alloc, text)?;
    Vec::from_slice(alloc, text_at(lines.as_slice(), number))
}
