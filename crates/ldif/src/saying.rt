//! Takes one unfolded line apart: a name, a value, nothing, or a fault.

ghost use Rattle.std.specs.Prelude.{◌≡◌, ◌+◌, option_map, nat_eq, position, false, true, IfOk, MatchOption};
ghost use Rattle.std.specs.Result.{result_ok};
ghost use Rattle.std.specs.Str.{is_utf8};
ghost use Rattle.base64.specs.Engines.{standard};
ghost use Rattle.base64.specs.GeneralPurpose.{decode_of};
ghost use Rattle.ldif.specs.Says as says;
ghost use Rattle.ldif.specs.private.Said.{said_of};

use crate::describing::{begins_change, is_dn, is_type};
use crate::fault::LdifCause;
use crate::record::AttributeValue;
use base64::DecodeAllocError;
use base64::engine::general_purpose::STANDARD;
use std::alloc::{AllocError, Global};

/// What a line says.
#[derive(Drop)]
pub enum Said {
    /// Nothing; it ends a record.
    Blank,
    /// Nothing; it is skipped.
    Comment,
    /// A record's name.
    Name(String),
    /// A value that stands as it is.
    Value(AttributeValue),
    /// A value in base64.
    Encoded(AttributeValue),
    /// Nothing of the profile, for this cause.
    Wrong(LdifCause),
}

/// The octets behind the spaces at the front.
fn past_spaces(octets: &[u8]) -> &[u8]
    ensures { result.now ≡ says.past_spaces octets.now }
{
    for (at, octet) in octets.iter().enumerate() {
        if *octet != b' ' {
            return &octets[at..];
        }
    }
    &[]
}

/// The octets that base64 stands for, where it is base64.
fn decoded(alloc: Global, text: &[u8]) -> Result<Option<Vec<u8>>, AllocError>
    ensures { IfOk result (λ o. option_map (λ v. v.items) o ≡ result_ok (decode_of standard text.now)) }
{
    match STANDARD.decode(alloc, text) {
        Ok(octets) => Ok(Some(octets)),
        Err(DecodeAllocError::DecodeError(_)) => Ok(None),
        Err(DecodeAllocError::OutOfMemory) => Err(AllocError),
    }
}

/// Whether what stands behind a type's colon is in base64.
fn is_encoded(part: &[u8]) -> bool
    ensures { result ≡ says.is_encoded part.now }
{
    match part {
        [b':', ..] => true,
        _ => false,
    }
}

/// The octets of what stands behind a type's colon.
fn octets_of(alloc: Global, part: &[u8]) -> Result<Option<Vec<u8>>, AllocError>
    ensures { IfOk result (λ o. option_map (λ v. v.items) o ≡ says.octets_of part.now) }
{
    match part {
        [] => Ok(Some(Vec::new(alloc))),
        [b':', rest @ ..] => decoded(alloc, past_spaces(rest)),
        [b'<', ..] => Ok(None),
        _ => Ok(Some(Vec::from_slice(alloc, past_spaces(part))?)),
    }
}

/// The octets as text.
fn text_of(octets: &[u8]) -> Option<&str>
    ensures { MatchOption result (is_utf8 octets.now ≡ false)
        (λ t. (is_utf8 octets.now ≡ true) × (t.now ≡ octets.now)) }
{
    match std::str::from_utf8(octets) {
        Ok(text) => Some(text),
        Err(_) => None,
    }
}

/// What a name's line says.
fn name_said(alloc: Global, octets: &[u8]) -> Result<Said, AllocError>
    ensures { IfOk result (λ s. said_of s ≡ says.name_says octets.now) }
{
    match text_of(octets) {
        Some(text) => Ok(Said::Name(String::from_str(alloc, text)?)),
        None => Ok(Said::Wrong(LdifCause::NameNotUtf8)),
    }
}

/// What a value says, in base64 or as it stands.
fn form_said(in_base64: bool, value: AttributeValue) -> Said
    ensures { said_of result ≡ says.form_says in_base64 value }
{
    if in_base64 {
        Said::Encoded(value)
    } else {
        Said::Value(value)
    }
}

/// Why what stands before a colon is no type of a value.
fn no_type(word: &[u8]) -> LdifCause
    ensures { result ≡ says.no_type word.now }
{
    if begins_change(word) {
        LdifCause::Change
    } else {
        LdifCause::NoDescription
    }
}

/// What a value's line says.
fn value_said(
    alloc: Global,
    in_base64: bool,
    word: &[u8],
    octets: Vec<u8>,
) -> Result<Said, AllocError>
    ensures { IfOk result (λ s. said_of s ≡ says.value_says in_base64 word.now octets.items) }
{
    if !is_type(word) {
        return Ok(Said::Wrong(no_type(word)));
    }
    match text_of(word) {
        Some(description) => {
            let description = String::from_str(alloc, description)?;
            Ok(form_said(in_base64, AttributeValue::new(description, octets)))
        }
        None => Ok(Said::Wrong(no_type(word))),
    }
}

/// Why what stands behind a colon stands for no octets, by whether it is in base64.
fn no_octets(in_base64: bool) -> LdifCause
    ensures { result ≡ says.no_octets in_base64 }
{
    if in_base64 {
        LdifCause::BadBase64
    } else {
        LdifCause::ByUrl
    }
}

/// What a line of a type and a value says.
fn pair_said(alloc: Global, word: &[u8], part: &[u8]) -> Result<Said, AllocError>
    ensures { IfOk result (λ s. said_of s ≡ says.pair_says (says.is_encoded part.now) word.now
        (says.octets_of part.now)) }
{
    match octets_of(alloc, part)? {
        None => Ok(Said::Wrong(no_octets(is_encoded(part)))),
        Some(octets) => {
            if is_dn(word) {
                name_said(alloc, octets.as_slice())
            } else {
                value_said(alloc, is_encoded(part), word, octets)
            }
        }
    }
}

/// Where the first colon stands.
fn colon(octets: &[u8]) -> Option<usize>
    ensures { result ≡ position (nat_eq 58) octets.now }
{
    octets.iter().position(|octet| b':' == *octet)
}

/// Why a line without a colon is wrong.
fn no_colon(line: &[u8]) -> LdifCause
    ensures { result ≡ says.no_colon line.now }
{
    if line == b"-".as_slice() {
        LdifCause::Change
    } else {
        LdifCause::NoColon
    }
}

/// What a line says, by its first colon.
fn colon_said(alloc: Global, line: &[u8]) -> Result<Said, AllocError>
    ensures { IfOk result (λ s. said_of s ≡ says.colon_says line.now (position (nat_eq 58) line.now)) }
{
    match colon(line) {
        None => Ok(Said::Wrong(no_colon(line))),
        Some(at) => pair_said(alloc, &line[..at], &line[at + 1..]),
    }
}

/// What a line says.
pub fn line_said(alloc: Global, line: &[u8]) -> Result<Said, AllocError>
    ensures { IfOk result (λ s. said_of s ≡ says.line_says line.now) }
{
    match line {
        [] => Ok(Said::Blank),
        [b'#', ..] => Ok(Said::Comment),
        [b' ', ..] => Ok(Said::Wrong(LdifCause::ContinuesNothing)),
        _ => colon_said(alloc, line),
    }
}
