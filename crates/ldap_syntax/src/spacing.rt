//! The last step of preparation: spaces that do not count.

ghost use Rattle.std.specs.Prelude.{◌≡◌, ◌++◌, not, nat_eq, string_bytes, encode_utf8_all, IfOk, OnOk};
ghost use Rattle.std.specs.List.{list_any};
ghost use Rattle.ldap_syntax.specs.Text.{words as words_of, joined as joined_words, begins_with_space as has_space_before, ends_with_space as has_space_behind, is_led as is_led_by_space, is_closed as is_closed_by_space, space_if as space_where, blank as blank_part, spaced as spaced_text, without_spaces as text_without_spaces, without_separators as text_without_separators};

use crate::mapping::SPACE;
use crate::preparing::Part;
use std::alloc::{AllocError, Global};

/// So many octets more than a text of ASCII has characters mostly hold it with its SPACEs: one at each edge, and one
/// more between a few words.
const MORE: usize = 4;

/// One SPACE at each closed edge, at most one at an open edge, two between words (RFC 4518 2.6.1). Takes one allocation
/// and its growths.
pub fn spaced(alloc: Global, text: &[char], part: Part) -> Result<String, AllocError>
    ensures { IfOk result (λ s. string_bytes s ≡ encode_utf8_all (spaced_text part text.now)) }
{
    if !has_word(text) {
        return blank(alloc, part);
    }
    let mut out = String::with_capacity(alloc, text.len().saturating_add(MORE))?;
    push_space_if(&mut out, is_led(part, text))?;
    push_words(&mut out, text)?;
    push_space_if(&mut out, is_closed(part, text))?;
    Ok(out)
}

/// The text without SPACEs (RFC 4518 2.6.2). Takes one allocation and its growths.
pub fn without_spaces(alloc: Global, text: &[char]) -> Result<String, AllocError>
    ensures { IfOk result (λ s. string_bytes s ≡ encode_utf8_all (text_without_spaces text.now)) }
{
    text.iter().copied().filter(|c| *c != SPACE).collect(alloc)
}

/// The text without SPACEs and hyphens (RFC 4518 2.6.3). Takes one allocation and its growths.
pub fn without_separators(alloc: Global, text: &[char]) -> Result<String, AllocError>
    ensures { IfOk result (λ s. string_bytes s ≡ encode_utf8_all (text_without_separators text.now)) }
{
    text.iter()
        .copied()
        .filter(|c| *c != SPACE && *c != '-')
        .collect(alloc)
}

/// Whether a character other than SPACE stands in the text.
fn has_word(text: &[char]) -> bool
    ensures { result ≡ list_any (λ c. not (nat_eq c 32)) text.now }
{
    text.iter().any(|c| *c != SPACE)
}

/// What stands for a text of SPACEs alone.
fn blank(alloc: Global, part: Part) -> Result<String, AllocError>
    ensures { IfOk result (λ s. string_bytes s ≡ encode_utf8_all (blank_part part)) }
{
    match part {
        Part::Whole => String::from_str(alloc, "  "),
        Part::Initial | Part::Any | Part::Final => String::from_str(alloc, " "),
    }
}

/// Whether a SPACE stands before the first word.
fn is_led(part: Part, text: &[char]) -> bool
    ensures { result ≡ is_led_by_space part text.now }
{
    match part {
        Part::Whole | Part::Initial => true,
        Part::Any | Part::Final => begins_with_space(text),
    }
}

/// Whether a SPACE stands behind the last word.
fn is_closed(part: Part, text: &[char]) -> bool
    ensures { result ≡ is_closed_by_space part text.now }
{
    match part {
        Part::Whole | Part::Final => true,
        Part::Initial | Part::Any => ends_with_space(text),
    }
}

fn begins_with_space(text: &[char]) -> bool
    ensures { result ≡ has_space_before text.now }
{
    match text {
        [] => false,
        [first, ..] => *first == SPACE,
    }
}

fn ends_with_space(text: &[char]) -> bool
    ensures { result ≡ has_space_behind text.now }
{
    match text {
        [] => false,
        [.., last] => *last == SPACE,
    }
}

/// A SPACE at the end of `out`, where one is wanted.
fn push_space_if(out: &mut String, wanted: bool) -> Result<(), AllocError>
    ensures { OnOk result (string_bytes out.new ≡ string_bytes out.old ++ space_where wanted) }
{
    if wanted {
        out.push(SPACE)?;
    }
    Ok(())
}

/// The words of the text at the end of `out`, two SPACEs between them.
fn push_words(out: &mut String, text: &[char]) -> Result<(), AllocError>
    ensures { OnOk result (string_bytes out.new
        ≡ string_bytes out.old ++ encode_utf8_all (joined_words (words_of text.now))) }
{
    let mut begun = false;
    let mut gap = false;
    for c in text {
        if *c == SPACE {
            gap = true;
        } else {
            if begun && gap {
                out.push_str("  ")?;
            }
            out.push(*c)?;
            begun = true;
            gap = false;
        }
    }
    Ok(())
}
