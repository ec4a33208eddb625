//! Texts of filters (RFC 4515 3): what was expected at the octet where no filter's text goes on. All before it begins a
//! filter.
ghost use Rattle.std.specs.Prelude.{◌≡◌, ◌++◌, ◌-◌, ◌∷◌, [], IfOk, OnOk, drop, length, nat_eq, slice_get, string_bytes, take};
ghost use Rattle.std.specs.List.{list_any};
ghost use Rattle.text_faults.specs.Filters.{place_after, around_after, place_behind, around_behind, wanted_behind, missing_digits};
ghost use Rattle.text_faults.specs.Filters.{wanted_for, wanted_in_value, ends_with_half, is_half, wanted_in_front, wanted_in_item};
ghost use Rattle.text_faults.specs.Filters.{wanted_at, found_shown, filter_sentence};
ghost use Rattle.text_faults.specs.declared.filters.Place.TheVariants as place;

use crate::fronts::{colon, place_of};
use crate::showing::{octet_shown, said};
use std::alloc::{AllocError, Global};

/// What is round a place.
#[derive(Clone, Copy)]
pub enum Around {
    /// `(&` or `(|`.
    Row,
    /// `(!`.
    Negation,
}

/// Where a reader of a filter is.
#[derive(Clone, Copy)]
pub enum Place {
    /// A filter is to begin.
    Opening,
    /// Behind its `(`.
    Inside,
    /// In an item, which begins at this index.
    InItem(usize),
    /// Behind a filter, or at the front of a row.
    Behind,
}

/// The place behind an octet, which is of this index and goes on with a filter.
fn place_after(place: Place, index: usize, octet: u8) -> Place
    ensures { result ≡ place_after place index octet }
{
    match place {
        Place::Opening => Place::Inside,
        Place::Inside => match octet {
            b'&' | b'|' => Place::Behind,
            b'!' => Place::Opening,
            _ => Place::InItem(index),
        },
        Place::InItem(start) => match octet {
            b')' => Place::Behind,
            _ => Place::InItem(start),
        },
        Place::Behind => match octet {
            b'(' => Place::Inside,
            _ => Place::Behind,
        },
    }
}

/// Goes into a row or a negation.
fn enter(around: &mut Vec<Around>, inner: Around) -> Result<(), AllocError>
    ensures { OnOk result (around.new.items ≡ around.old.items ++ inner ∷ []) }
{
    around.push(inner)?;
    Ok(())
}

/// Leaves the innermost row or negation.
fn leave(around: &mut Vec<Around>)
    ensures { around.new.items ≡ take (length around.old.items - 1) around.old.items }
{
    let _ = around.pop();
}

/// Goes into what an octet behind a filter's `(` begins.
fn enter_by(around: &mut Vec<Around>, octet: u8) -> Result<(), AllocError>
    ensures { OnOk result (around.new.items ≡ around_after place.Inside octet around.old.items) }
{
    match octet {
        b'&' | b'|' => enter(around, Around::Row),
        b'!' => enter(around, Around::Negation),
        _ => Ok(()),
    }
}

/// Goes into what an octet begins, or leaves what it ends.
fn go_on(around: &mut Vec<Around>, place: Place, octet: u8) -> Result<(), AllocError>
    ensures { OnOk result (around.new.items ≡ around_after place octet around.old.items) }
{
    match place {
        Place::Inside => enter_by(around, octet),
        Place::Behind => {
            if octet != b'(' {
                leave(around);
            }
            Ok(())
        }
        Place::Opening | Place::InItem(_) => Ok(()),
    }
}

/// The place behind a front of a filter's text, and what is round it, the innermost last.
fn place_behind(alloc: Global, front: &[u8]) -> Result<(Place, Vec<Around>), AllocError>
    ensures place { IfOk result (λ r. r.0 ≡ place_behind 0 place.Opening front.now) }
    ensures around { IfOk result (λ r. r.1.items ≡ around_behind 0 place.Opening [] front.now) }
{
    let mut around = Vec::new(alloc);
    let mut place = Place::Opening;
    for (index, octet) in front.iter().enumerate() {
        go_on(&mut around, place, *octet)?;
        place = place_after(place, index, *octet);
    }
    Ok((place, around))
}

/// What was expected behind a filter.
fn wanted_behind(around: &Vec<Around>) -> &'static str
    ensures { result.now ≡ wanted_behind (slice_get around.now.items (length around.now.items - 1)) }
{
    match around.as_slice().last() {
        None => "nothing behind the filter",
        Some(Around::Row) => "'(' or ')'",
        Some(Around::Negation) => "')'",
    }
}

/// How many digits a value still waits for behind its last backslash.
fn missing_digits(value: &[u8]) -> usize
    ensures { result ≡ missing_digits 0 value.now }
{
    let mut missing: usize = 0;
    for octet in value {
        missing = if *octet == b'\\' && missing == 0 {
            2
        } else {
            missing.saturating_sub(1)
        };
    }
    missing
}

/// What was expected in place of this octet of a value, or of the text's end.
fn wanted_for(next: Option<u8>) -> &'static str
    ensures { result.now ≡ wanted_for next }
{
    match next {
        Some(b'(') => "a value in which '(' is written \\28",
        Some(b'*') => "a value in which '*' is written \\2a",
        Some(0) => "a value in which the octet 0 is written \\00",
        Some(_) => "a value in which each octet is text, or a backslash and two digits",
        None => "')'",
    }
}

/// What was expected in a value, of which this much is right.
fn wanted_in_value(value: &[u8], next: Option<u8>) -> &'static str
    ensures { result.now ≡ wanted_in_value value.now next }
{
    if missing_digits(value) == 0 {
        wanted_for(next)
    } else {
        "two hexadecimal digits behind the backslash"
    }
}

/// Whether octets end with the first of an operator of two.
fn ends_with_half(front: &[u8]) -> bool
    ensures { result ≡ ends_with_half front.now }
{
    match front.last() {
        Some(last) => *last == b'>' || *last == b'<' || *last == b'~',
        None => false,
    }
}

/// Whether a colon is among octets.
fn has_colon(octets: &[u8]) -> bool
    ensures { result ≡ list_any (λ octet. nat_eq octet 58) octets.now }
{
    colon(octets).is_some()
}

/// What was expected behind the front of an item's name and its operator.
fn wanted_in_front(front: &[u8]) -> &'static str
    ensures { result.now ≡ wanted_in_front front.now }
{
    if ends_with_half(front) {
        return "'=' behind '>', '<' or '~'";
    }
    if has_colon(front) {
        "a rule's name, or ':=' and a value"
    } else {
        "the rest of the attribute's name, '=', '~=', '>=', '<=' or ':='"
    }
}

/// What was expected in an item, of which this much is right.
fn wanted_in_item(item: &[u8], next: Option<u8>) -> &'static str
    ensures { result.now ≡ wanted_in_item item.now next }
{
    match place_of(item, b'=') {
        None => wanted_in_front(item),
        Some(at) => wanted_in_value(&item[at + 1..], next),
    }
}

/// What is left of octets from an index on.
fn behind(octets: &[u8], start: usize) -> &[u8]
    ensures { result.now ≡ drop start octets.now }
{
    &octets[start.min(octets.len())..]
}

/// The octets before an index.
fn up_to(octets: &[u8], end: usize) -> &[u8]
    ensures { result.now ≡ take end octets.now }
{
    &octets[..end.min(octets.len())]
}

/// The octet of an index, where there is one.
fn octet_at(octets: &[u8], index: usize) -> Option<u8>
    ensures { result ≡ slice_get octets.now index }
{
    octets.get(index).copied()
}

/// What was expected at a place.
fn wanted_at(place: Place, around: &Vec<Around>, front: &[u8], next: Option<u8>) -> &'static str
    ensures { result.now ≡ wanted_at place around.now.items front.now next }
{
    match place {
        Place::Opening => "'('",
        Place::Inside => "'&', '|', '!', ':' or an attribute's name",
        Place::Behind => wanted_behind(around),
        Place::InItem(start) => wanted_in_item(behind(front, start), next),
    }
}

/// The octet that was found instead.
fn found(alloc: Global, next: Option<u8>) -> Result<String, AllocError>
    ensures { IfOk result (λ s. string_bytes s ≡ found_shown next) }
{
    match next {
        None => said(alloc, "the end of the text"),
        Some(octet) => {
            let octet = octet_shown(alloc, octet)?;
            format!(in alloc; "'{octet}'")
        }
    }
}

/// What was expected in a filter's text behind so many octets, which are the longest front that begins a filter.
pub fn filter_fault(alloc: Global, text: &str, at: usize) -> Result<String, AllocError>
    ensures { IfOk result (λ s. string_bytes s ≡ filter_sentence text.now at) }
{
    let octets = text.as_bytes();
    let front = up_to(octets, at);
    let next = octet_at(octets, at);
    let (place, around) = place_behind(alloc, front)?;
    let wanted = wanted_at(place, &around, front, next);
    let found = found(alloc, next)?;
    format!(in alloc; "expected {wanted}, found {found}")
}
