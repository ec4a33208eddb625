//! The first steps of preparation: white space and controls are mapped, text is normalised, case is folded.

ghost use Rattle.std.specs.Prelude.{◌≡◌, chars, map, IfOk};
ghost use Rattle.std.specs.Char.{to_ascii_lowercase};
ghost use Rattle.caseless.specs.Caseless.{default_case_fold as fold_of};
ghost use Rattle.unicode_normalization.specs.Forms.{nfkc as nfkc_of};
ghost use Rattle.ldap_syntax.specs.Text.{is_white as is_white_space, is_control as is_control_character, mapped_character as mapped_to, mapped as mapped_text, normal as normal_text, folded as folded_text};

use caseless::Caseless;
use smallvec::SmallVec;
use std::alloc::{AllocError, Global};
use unicode_normalization::slice;

/// SPACE, which stands for all white space in a prepared text.
pub const SPACE: char = ' ';

/// So many characters need no memory of their own.
const ROOM: usize = 32;

/// Mapped and in form KC: the steps that every text takes. Takes an allocation where it has more than `ROOM` octets,
/// and where it isn't ASCII, which is in that form, one more with its growths, and what puts marks in order.
pub fn normal(alloc: Global, text: &str) -> Result<SmallVec<char, ROOM>, AllocError>
    ensures { IfOk result (λ v. v.items ≡ normal_text (chars text.now)) }
{
    let mapped = mapped(alloc, text)?;
    if text.is_ascii() {
        return Ok(mapped);
    }
    Ok(SmallVec::from_vec(nfkc(alloc, mapped.as_slice())?))
}

/// Mapped and in form KC, then case folded by full folding, and in form KC again. Takes an allocation where it has more
/// than `ROOM` octets, and where it isn't ASCII, three more, each with its growths, and what puts marks in order.
pub fn folded(alloc: Global, text: &str) -> Result<SmallVec<char, ROOM>, AllocError>
    ensures { IfOk result (λ v. v.items ≡ folded_text (chars text.now)) }
{
    if text.is_ascii() {
        return lowered(alloc, text);
    }
    let normal = normal(alloc, text)?;
    let lower = case_folded(alloc, normal.as_slice())?;
    Ok(SmallVec::from_vec(nfkc(alloc, lower.as_slice())?))
}

/// Whether the character is white space, which is mapped to SPACE.
fn is_white(c: char) -> bool
    ensures { result ≡ is_white_space c }
{
    ('\t' <= c && c <= '\r')
        || c == SPACE
        || c == '\u{85}'
        || c == '\u{a0}'
        || c == '\u{1680}'
        || ('\u{2000}' <= c && c <= '\u{200a}')
        || c == '\u{2028}'
        || c == '\u{2029}'
        || c == '\u{202f}'
        || c == '\u{205f}'
        || c == '\u{3000}'
}

/// Whether the character is a control character, which is mapped to nothing.
fn is_control(c: char) -> bool
    ensures { result ≡ is_control_character c }
{
    c <= '\u{8}'
        || ('\u{e}' <= c && c <= '\u{1f}')
        || ('\u{7f}' <= c && c <= '\u{84}')
        || ('\u{86}' <= c && c <= '\u{9f}')
}

/// What the character is mapped to.
fn mapped_character(c: char) -> char
    ensures { result ≡ mapped_to c }
{
    if is_white(c) { SPACE } else { c }
}

/// The mapping step (RFC 4518 2.2), without case folding.
fn mapped(alloc: Global, text: &str) -> Result<SmallVec<char, ROOM>, AllocError>
    ensures { IfOk result (λ v. v.items ≡ mapped_text (chars text.now)) }
{
    let mut out = SmallVec::with_capacity(alloc, text.len())?;
    for c in text.chars() {
        if !is_control(c) {
            out.push(mapped_character(c))?;
        }
    }
    Ok(out)
}

/// Mapped, with the capitals of ASCII made small.
fn lowered(alloc: Global, text: &str) -> Result<SmallVec<char, ROOM>, AllocError>
    ensures { IfOk result (λ v. v.items ≡ map to_ascii_lowercase (mapped_text (chars text.now))) }
{
    let mut out = SmallVec::with_capacity(alloc, text.len())?;
    for c in text.chars() {
        if !is_control(c) {
            out.push(mapped_character(c).to_ascii_lowercase())?;
        }
    }
    Ok(out)
}

/// The characters in normalization form KC (RFC 4518 2.3).
fn nfkc(alloc: Global, text: &[char]) -> Result<Vec<char>, AllocError>
    ensures { IfOk result (λ v. v.items ≡ nfkc_of text.now) }
{
    let mut out = Vec::new(alloc);
    slice::extend_nfkc(&mut out, text)?;
    Ok(out)
}

/// The characters with full case folding.
fn case_folded(alloc: Global, text: &[char]) -> Result<Vec<char>, AllocError>
    ensures { IfOk result (λ v. v.items ≡ fold_of text.now) }
{
    text.iter().copied().default_case_fold().collect(alloc)
}
