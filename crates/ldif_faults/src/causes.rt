//! Puts into words why a line is no LDIF (RFC 2849).
ghost use Rattle.std.specs.Prelude.{◌≡◌, ◌≤◌, [], IfOk, length, map, nat_eq, not, option_map, slice_get, string_bytes};
ghost use Rattle.std.specs.List.{filter, position, prefix_len};
ghost use Rattle.std.specs.Option.{unwrap_or};
ghost use Rattle.ldif_faults.specs.Causes.{is_base64, bad_base64_by, less_spaces, encoded_at, bad_base64, no_colon, no_description};
ghost use Rattle.ldif_faults.specs.Causes.{no_record, first_line, open_before, second_name, ldif_sentence};

use ldif::{LdifCause, line_at, record_lines};
use std::alloc::{AllocError, Global};
use text_faults::{about_octet, about_word, colon, front_of, said};

/// Whether an octet is a digit of base64 or fills its end.
fn is_base64(octet: u8) -> bool
    ensures { result ≡ is_base64 octet }
{
    octet.is_ascii_alphanumeric() || matches!(octet, b'+' | b'/' | b'=')
}

/// The first octet that is no digit of base64.
fn no_base64(value: &[u8]) -> Option<u8>
    ensures { result ≡ slice_get (filter (λ octet. not (is_base64 octet)) value.now) 0 }
{
    for octet in value {
        if !is_base64(*octet) {
            return Some(*octet);
        }
    }
    None
}

/// Base64 with such an octet, or without one.
fn bad_base64_by(alloc: Global, octet: Option<u8>) -> Result<String, AllocError>
    ensures { IfOk result (λ s. string_bytes s ≡ bad_base64_by octet) }
{
    let Some(octet) = octet else {
        return said(
            alloc,
            "no base64: its end is cut, badly filled by '=', or has bits left over",
        );
    };
    about_octet(alloc, "'", octet, "' is no digit of base64")
}

/// How many spaces are before a value.
fn count_of_spaces(octets: &[u8]) -> usize
    ensures count { result ≡ prefix_len (λ octet. nat_eq octet 32) octets.now }
    ensures bound { result ≤ length octets.now }
{
    octets.iter().take_while(|octet| **octet == b' ').count()
}

/// Octets less the spaces before them.
fn less_spaces(octets: &[u8]) -> &[u8]
    ensures { result.now ≡ less_spaces octets.now }
{
    &octets[count_of_spaces(octets)..]
}

/// What is behind the two colons of a line.
fn encoded_in(line: &[u8]) -> &[u8]
    ensures { result.now ≡ encoded_at line.now (position (λ octet. nat_eq octet 58) line.now) }
{
    match colon(line) {
        None => &[],
        Some(at) => less_spaces(&line[line.len().min(at + 2)..]),
    }
}

/// A line whose base64 spells no octets.
fn bad_base64(alloc: Global, line: &[u8]) -> Result<String, AllocError>
    ensures { IfOk result (λ s. string_bytes s ≡ bad_base64 line.now) }
{
    bad_base64_by(alloc, no_base64(encoded_in(line)))
}

/// A line without a colon.
fn no_colon(alloc: Global, line: &[u8]) -> Result<String, AllocError>
    ensures { IfOk result (λ s. string_bytes s ≡ no_colon line.now) }
{
    about_word(alloc, "expected 'type: value', found '", line, "'")
}

/// A line whose front is no attribute description.
fn no_description(alloc: Global, line: &[u8]) -> Result<String, AllocError>
    ensures { IfOk result (λ s. string_bytes s ≡ no_description line.now) }
{
    about_word(alloc, "'", front_of(line), "' is no attribute's name")
}

/// A value outside records.
fn no_record(alloc: Global, line: &[u8]) -> Result<String, AllocError>
    ensures { IfOk result (λ s. string_bytes s ≡ no_record line.now) }
{
    about_word(
        alloc,
        "expected 'dn:', not '",
        front_of(line),
        ":': a record begins with its name",
    )
}

/// The first line of a record; 0, where it has none.
fn first_line(place: &[usize]) -> usize
    ensures { result ≡ first_line place.now }
{
    match place {
        [first, ..] => *first,
        [] => 0,
    }
}

/// The lines of the last of these records that begins before a line.
fn open_before(places: &[Vec<usize>], number: usize) -> Option<&[usize]>
    ensures { option_map (λ x. x.now) result ≡ open_before (map (λ v. v.items) places.now) number }
{
    let mut last = None;
    for place in places {
        if first_line(place) < number {
            last = Some(place.as_slice());
        }
    }
    last
}

/// The first line of a record, where there is one.
fn line_of(place: Option<&[usize]>) -> usize
    ensures { result ≡ first_line (unwrap_or (option_map (λ x. x.now) place.entry) []) }
{
    match place {
        Some(place) => first_line(place),
        None => 0,
    }
}

/// A record's name where a record is open.
fn second_name(alloc: Global, text: &[u8], number: usize) -> Result<String, AllocError>
    ensures { IfOk result (λ s. string_bytes s ≡ ldif_sentence text.now number LdifCause.SecondName) }
{
    let places = record_lines(alloc, text)?;
    let line = line_of(open_before(&places, number));
    format!(in alloc; "a second 'dn:' in the record of line {line}: an empty line ends a record")
}

/// What is wrong with the line of this number of a text, counted from 1, which is no LDIF there for this cause.
pub fn ldif_fault(
    alloc: Global,
    text: &[u8],
    number: usize,
    cause: LdifCause,
) -> Result<String, AllocError>
    ensures { IfOk result (λ s. string_bytes s ≡ ldif_sentence text.now number cause) }
{
    match cause {
        LdifCause::ContinuesNothing => said(
            alloc,
            "the line begins with a space and continues nothing: no line, or an empty one, is before it",
        ),
        LdifCause::NoColon => no_colon(alloc, &line_at(alloc, text, number)?),
        LdifCause::Change => said(alloc, "a change record is not supported, only entries"),
        LdifCause::ByUrl => said(alloc, "a value by URL, behind ':<', is not supported"),
        LdifCause::BadBase64 => bad_base64(alloc, &line_at(alloc, text, number)?),
        LdifCause::NoDescription => no_description(alloc, &line_at(alloc, text, number)?),
        LdifCause::NameNotUtf8 => said(alloc, "the name is not UTF-8"),
        LdifCause::SecondName => second_name(alloc, text, number),
        LdifCause::NoRecord => no_record(alloc, &line_at(alloc, text, number)?),
        LdifCause::LateVersion => said(alloc, "'version:' comes once, before all records"),
        LdifCause::BadVersion => said(alloc, "expected 'version: 1', the one version"),
    }
}
