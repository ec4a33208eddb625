//! Texts of distinguished names (RFC 4514 3): which part is no name's, and why. Whether a part is one is asked of the
//! reader of names.
ghost use Rattle.std.specs.Prelude.{◌≡◌, ◌++◌, ◌∷◌, [], IfOk, OnOk, codes, is_none, is_some, map, nat_eq, option_map, string_bytes};
ghost use Rattle.std.specs.List.{position};
ghost use Rattle.ldap_match.specs.ldap_dn.Texts.{name_of_text, step as reader_step, tokens_of};
ghost use Rattle.ldap_match.specs.ldap_dn.Tokens.{is_escapable};
ghost use Rattle.text_faults.specs.Names.{bad_cut, bad_name_by, bad_named, bad_pair, bad_rdn, bad_value, bare_mark, first_wrong, is_bare};
ghost use Rattle.text_faults.specs.Names.{is_blank, is_mark, is_name, is_right, less_front, name_sentence, no_name, no_value, parts_of, trimmed};
ghost use Rattle.text_faults.specs.Words.{octet_shown};
ghost use Rattle.text_faults.specs.private.Names.{scan_of, goes_to};

use crate::fronts::place_of;
use crate::showing::{about_octet, about_word, about_words, said};
use ldap_match::{Name, NameError, Schema, TypeId, equality_rule};
use ldap_words::hex_octet;
use std::alloc::{AllocError, Global};

/// Whether an octet is this mark, and not escaped.
fn is_bare(mark: u8, octet: u8, is_escaped: bool) -> bool
    ensures { result ≡ is_bare mark (octet, is_escaped) }
{
    octet == mark && !is_escaped
}

/// Whether an octet escapes the one behind it.
fn is_escape(octet: u8, is_escaped: bool) -> bool
    ensures { result ≡ is_bare 92 (octet, is_escaped) }
{
    is_bare(b'\\', octet, is_escaped)
}

/// Adds a part.
fn push_part<'a>(parts: &mut Vec<&'a [u8]>, part: &'a [u8]) -> Result<(), AllocError>
    ensures { OnOk result (map (λ x. x.now) parts.new.items ≡ map (λ x. x.now) parts.old.items ++ part.now ∷ []) }
{
    parts.push(part)?;
    Ok(())
}

/// The parts of octets between the marks that no backslash escapes.
fn parts(alloc: Global, text: &[u8], mark: u8) -> Result<Vec<&[u8]>, AllocError>
    ensures { IfOk result (λ v. map (λ x. x.now) v.items ≡ parts_of mark text.now) }
{
    let mut parts = Vec::new(alloc);
    let mut is_escaped = false;
    let mut start = 0;
    for (index, octet) in text.iter().enumerate() {
        if is_bare(mark, *octet, is_escaped) {
            push_part(&mut parts, &text[start..index])?;
            start = index + 1;
        }
        is_escaped = is_escape(*octet, is_escaped);
    }
    push_part(&mut parts, &text[start..])?;
    Ok(parts)
}

/// Octets less the white space at their front.
fn less_front(octets: &[u8]) -> &[u8]
    ensures { result.now ≡ less_front octets.now }
{
    octets.trim_ascii_start()
}

/// Octets less the white space at both ends.
fn trimmed(octets: &[u8]) -> &[u8]
    ensures { result.now ≡ trimmed octets.now }
{
    octets.trim_ascii()
}

/// Whether octets are spaces alone.
fn is_blank(octets: &[u8]) -> bool
    ensures { result ≡ is_blank octets.now }
{
    octets.iter().all(|octet| *octet == b' ')
}

/// Whether a text is that of a name, or there is no memory to tell.
fn reads(alloc: Global, schema: &Schema, text: &str) -> Result<bool, AllocError>
    ensures { IfOk result (λ b. b ≡ is_some (name_of_text schema.now text.now)) }
{
    match Name::read(alloc, schema, text) {
        Ok(_) => Ok(true),
        Err(NameError::BadName) => Ok(false),
        Err(NameError::NoMemory) => Err(AllocError),
    }
}

#[tactic(auto, using(crate::proofs::Utf8::utf8_true, crate::proofs::Utf8::utf8_false))]
/// Whether octets are the text of a name, or there is no memory to tell.
fn is_name(alloc: Global, schema: &Schema, octets: &[u8]) -> Result<bool, AllocError>
    ensures { IfOk result (λ b. b ≡ is_name schema.now octets.now) }
{
    let Ok(text) = str::from_utf8(octets) else {
        return Ok(false);
    };
    reads(alloc, schema, text)
}

/// Whether a part of a name is one.
fn is_right(alloc: Global, schema: &Schema, part: &[u8]) -> Result<bool, AllocError>
    ensures { IfOk result (λ b. b ≡ is_right schema.now part.now) }
{
    if is_blank(part) {
        return Ok(false);
    }
    is_name(alloc, schema, part)
}

/// The first part of a name that is none.
fn first_wrong<'a>(
    alloc: Global,
    schema: &Schema,
    parts: &[&'a [u8]],
) -> Result<Option<&'a [u8]>, AllocError>
    ensures { IfOk result (λ o. option_map (λ x. x.now) o ≡ first_wrong schema.now (map (λ x. x.now) parts.now)) }
{
    for part in parts {
        if !is_right(alloc, schema, part)? {
            return Ok(Some(*part));
        }
    }
    Ok(None)
}

/// Whether a value has an octet only behind a backslash.
fn is_mark(octet: u8) -> bool
    ensures { result ≡ is_mark octet }
{
    matches!(octet, b'"' | b'+' | b',' | b';' | b'<' | b'>' | 0)
}

/// The first such octet of a value that no backslash escapes.
fn bare_mark(value: &[u8]) -> Option<u8>
    ensures { result ≡ bare_mark value.now }
{
    let mut is_escaped = false;
    for octet in value {
        if is_mark(*octet) && !is_escaped {
            return Some(*octet);
        }
        is_escaped = is_escape(*octet, is_escaped);
    }
    None
}

/// Where a reader of escapes is: outside them, behind a backslash, or behind a backslash and this octet.
#[derive(Clone, Copy)]
enum Escape {
    Outside,
    Begun,
    Half(u8),
}

/// Whether a backslash may be before an octet.
fn is_escapable(octet: u8) -> bool
    ensures { result ≡ is_escapable octet }
{
    is_mark(octet) || matches!(octet, b'\\' | b' ' | b'#' | b'=')
}

/// Where a reader of escapes is behind an octet; none, where the octet ends no escape.
fn behind(escape: Escape, octet: u8) -> Option<Escape>
    ensures { option_map scan_of result ≡ goes_to (reader_step (scan_of escape) octet) }
{
    match escape {
        Escape::Outside if octet == b'\\' => Some(Escape::Begun),
        Escape::Outside => Some(Escape::Outside),
        Escape::Begun if is_escapable(octet) => Some(Escape::Outside),
        Escape::Begun => Some(Escape::Half(octet)),
        Escape::Half(digit) => {
            let _ = hex_octet(digit, octet)?;
            Some(Escape::Outside)
        }
    }
}

#[tactic(auto, using(crate::proofs::Escaping::fails_drop))]
/// Whether a backslash begins no escape.
fn has_bad_escape(text: &[u8]) -> bool
    ensures { result ≡ is_none (tokens_of text.now) }
{
    let mut escape = Escape::Outside;
    for octet in text {
        match behind(escape, *octet) {
            Some(next) => escape = next,
            None => return true,
        }
    }
    match escape {
        Escape::Outside => false,
        Escape::Begun | Escape::Half(_) => true,
    }
}

/// A value that is in no name for its type's sake.
fn no_value(
    alloc: Global,
    schema: &Schema,
    type_id: TypeId,
    name: &[u8],
    value: &[u8],
) -> Result<String, AllocError>
    ensures { IfOk result (λ s. string_bytes s ≡ no_value schema.now type_id name.now value.now) }
{
    if equality_rule(schema, type_id).is_none() {
        return about_word(
            alloc,
            "'",
            name,
            "' has no EQUALITY, which a part of a name needs",
        );
    }
    about_words(alloc, "'", value, "' is no value of '", name, "' in a name")
}

/// An octet of a value that no backslash escapes.
fn unescaped(alloc: Global, octet: u8) -> Result<String, AllocError>
    ensures { IfOk result (λ s. string_bytes s ≡ codes "the '" ++ octet_shown octet ++ codes
        "' in a value comes behind a backslash") }
{
    about_octet(
        alloc,
        "the '",
        octet,
        "' in a value comes behind a backslash",
    )
}

/// A value of a type that is none of a name.
fn bad_value(
    alloc: Global,
    schema: &Schema,
    type_id: TypeId,
    name: &[u8],
    value: &[u8],
) -> Result<String, AllocError>
    ensures { IfOk result (λ s. string_bytes s ≡ bad_value schema.now type_id name.now value.now) }
{
    if let [b'#', ..] = value {
        return said(
            alloc,
            "a value in hexadecimal, behind '#', is not supported: '#' itself is '\\#'",
        );
    }
    match bare_mark(value) {
        Some(octet) => unescaped(alloc, octet),
        None => no_value(alloc, schema, type_id, name, value),
    }
}

/// A name of a type and a value, which are no pair of a name.
fn bad_named(
    alloc: Global,
    schema: &Schema,
    pair: &[u8],
    name: &[u8],
    value: &[u8],
) -> Result<String, AllocError>
    ensures { IfOk result (λ s. string_bytes s ≡ bad_named schema.now pair.now name.now value.now) }
{
    match schema.find_octets(name) {
        Some(type_id) => bad_value(alloc, schema, type_id, name, value),
        None => {
            let whole = trimmed(pair);
            about_words(alloc, "no attribute type '", name, "' (in '", whole, "')")
        }
    }
}

/// A pair whose escapes are right.
fn bad_cut(alloc: Global, schema: &Schema, pair: &[u8]) -> Result<String, AllocError>
    ensures { IfOk result (λ s. string_bytes s ≡ bad_cut schema.now pair.now (position (λ octet. nat_eq octet 61)
        pair.now)) }
{
    match place_of(pair, b'=') {
        None => about_word(alloc, "expected 'type=value', found '", trimmed(pair), "'"),
        Some(at) => {
            let (name, value) = (trimmed(&pair[..at]), trimmed(&pair[at + 1..]));
            bad_named(alloc, schema, pair, name, value)
        }
    }
}

/// A type and a value that are no part of a name.
fn bad_pair(alloc: Global, schema: &Schema, pair: &[u8]) -> Result<String, AllocError>
    ensures { IfOk result (λ s. string_bytes s ≡ bad_pair schema.now pair.now) }
{
    if is_blank(pair) {
        return said(alloc, "an empty part: expected 'type=value'");
    }
    if has_bad_escape(pair) {
        return about_word(
            alloc,
            "a backslash in '",
            trimmed(pair),
            "' has no mark and no two hexadecimal digits behind it",
        );
    }
    bad_cut(alloc, schema, pair)
}

/// The first part of a text, between such marks, that is no name.
fn wrong_part<'a>(
    alloc: Global,
    schema: &Schema,
    text: &'a [u8],
    mark: u8,
) -> Result<Option<&'a [u8]>, AllocError>
    ensures { IfOk result (λ o. option_map (λ x. x.now) o ≡ first_wrong schema.now (parts_of mark text.now)) }
{
    let parts = parts(alloc, text, mark)?;
    first_wrong(alloc, schema, parts.as_slice())
}

/// A relative name that is none.
fn bad_rdn(alloc: Global, schema: &Schema, rdn: &[u8]) -> Result<String, AllocError>
    ensures { IfOk result (λ s. string_bytes s ≡ bad_rdn schema.now rdn.now) }
{
    match wrong_part(alloc, schema, rdn, b'+')? {
        Some(pair) => bad_pair(alloc, schema, pair),
        None => about_word(alloc, "a type comes twice in '", trimmed(rdn), "'"),
    }
}

/// A text whose relative names are right.
fn no_name(alloc: Global, text: &[u8]) -> Result<String, AllocError>
    ensures { IfOk result (λ s. string_bytes s ≡ no_name text.now) }
{
    about_word(alloc, "'", text, "' is no name")
}

/// A text that isn't blank.
fn bad_name(alloc: Global, schema: &Schema, text: &[u8]) -> Result<String, AllocError>
    ensures { IfOk result (λ s. string_bytes s ≡ bad_name_by schema.now text.now
        (first_wrong schema.now (parts_of 44 text.now))) }
{
    match wrong_part(alloc, schema, text, b',')? {
        Some(rdn) => bad_rdn(alloc, schema, rdn),
        None => no_name(alloc, text),
    }
}

/// Which part of a text is no name's, under this schema. A text that is a name, and names no entry, is the empty one.
pub fn name_fault(alloc: Global, schema: &Schema, text: &str) -> Result<String, AllocError>
    ensures { IfOk result (λ s. string_bytes s ≡ name_sentence schema.now text.now) }
{
    let octets = text.as_bytes();
    if is_blank(octets) {
        return said(alloc, "the name is empty, and names no entry");
    }
    bad_name(alloc, schema, octets)
}
