//! Octets of a text as they are shown in a sentence: on one line, and not too long.
ghost use Rattle.std.specs.Prelude.{◌≡◌, ◌≤◌, ◌++◌, IfOk, OnOk, chars, flat_map, string_bytes, take};
ghost use Rattle.text_faults.specs.Words.{octet_shown};
ghost use Rattle.text_faults.specs.Words.{octet_digits, character_shown, raw_octet_shown, cut, word_shown};

use std::alloc::{AllocError, Global};
use std::fmt::Write;

/// How many characters of a word are shown in a sentence.
const WORD: usize = 64;

/// How many characters of a text are shown in a line of a log.
const LINE: usize = 512;

/// Adds an octet as a backslash and two hexadecimal digits.
fn push_digits(sentence: &mut String, octet: u8) -> Result<(), AllocError>
    ensures { OnOk result (string_bytes sentence.new ≡ string_bytes sentence.old ++ octet_digits octet) }
{
    let (high, low) = (octet / 16, octet % 16);
    write!(sentence, "\\{high:x}{low:x}")
}

/// Adds octets so, one behind the other.
fn push_all_digits(sentence: &mut String, octets: &[u8]) -> Result<(), AllocError>
    ensures { OnOk result (string_bytes sentence.new ≡ string_bytes sentence.old ++ flat_map octet_digits octets.now) }
{
    for octet in octets {
        push_digits(sentence, *octet)?;
    }
    Ok(())
}

/// Adds a character; in digits, where it would end the line or move the cursor.
fn push_character(sentence: &mut String, character: char) -> Result<(), AllocError>
    ensures { OnOk result (string_bytes sentence.new ≡ string_bytes sentence.old ++ character_shown character) }
{
    if character.is_control() {
        let mut room = [0; 4];
        return push_all_digits(sentence, character.encode_utf8(&mut room).as_bytes());
    }
    sentence.push(character)
}

/// Adds characters, one behind the other.
fn push_characters(sentence: &mut String, characters: &[char]) -> Result<(), AllocError>
    ensures { OnOk result (string_bytes sentence.new ≡ string_bytes sentence.old ++ flat_map character_shown
        characters.now) }
{
    for character in characters {
        push_character(sentence, *character)?;
    }
    Ok(())
}

/// The first characters of a text, at most so many.
fn first_characters(alloc: Global, text: &str, count: usize) -> Result<Vec<char>, AllocError>
    ensures { IfOk result (λ v. v.items ≡ take count (chars text.now)) }
{
    text.chars().take(count).collect(alloc)
}

/// Adds characters, or the first of them, so many, and two dots.
fn push_cut_characters(
    sentence: &mut String,
    characters: &[char],
    limit: usize,
) -> Result<(), AllocError>
    ensures { OnOk result (string_bytes sentence.new ≡ string_bytes sentence.old ++ cut limit character_shown
        characters.now) }
{
    if characters.len() <= limit {
        return push_characters(sentence, characters);
    }
    let (front, _) = characters.split_at(limit);
    push_characters(sentence, front)?;
    sentence.push_str("..")
}

/// Adds an octet of what is no text: in digits, where it isn't ASCII.
fn push_octet(sentence: &mut String, octet: u8) -> Result<(), AllocError>
    ensures { OnOk result (string_bytes sentence.new ≡ string_bytes sentence.old ++ raw_octet_shown octet) }
{
    if octet.is_ascii() {
        push_character(sentence, char::from(octet))
    } else {
        push_digits(sentence, octet)
    }
}

/// Adds octets of what is no text, one behind the other.
fn push_octets(sentence: &mut String, octets: &[u8]) -> Result<(), AllocError>
    ensures { OnOk result (string_bytes sentence.new ≡ string_bytes sentence.old ++ flat_map raw_octet_shown
        octets.now) }
{
    for octet in octets {
        push_octet(sentence, *octet)?;
    }
    Ok(())
}

/// Adds octets of what is no text, or the first of them and two dots.
fn push_cut_octets(sentence: &mut String, octets: &[u8]) -> Result<(), AllocError>
    ensures { OnOk result (string_bytes sentence.new ≡ string_bytes sentence.old ++ cut 64 raw_octet_shown octets.now) }
{
    if octets.len() <= WORD {
        return push_octets(sentence, octets);
    }
    let (front, _) = octets.split_at(WORD);
    push_octets(sentence, front)?;
    sentence.push_str("..")
}

#[tactic(auto, using(crate::proofs::Cuts::cut_front))]
/// A text as it is shown: so many of its characters, and two dots where there are more.
fn text_shown(alloc: Global, text: &str, limit: usize) -> Result<String, AllocError>
    requires { limit ≤ 512 }
    ensures { IfOk result (λ s. string_bytes s ≡ cut limit character_shown (chars text.now)) }
{
    let characters = first_characters(alloc, text, limit + 1)?;
    let mut shown = String::new(alloc);
    push_cut_characters(&mut shown, characters.as_slice(), limit)?;
    Ok(shown)
}

/// A client's text as a line of a log shows it: on one line, its front and two dots where it is long.
pub fn one_line(alloc: Global, text: &str) -> Result<String, AllocError>
    ensures { IfOk result (λ s. string_bytes s ≡ cut 512 character_shown (chars text.now)) }
{
    text_shown(alloc, text, LINE)
}

/// Octets that are no text as they are shown in a sentence.
fn octets_shown(alloc: Global, octets: &[u8]) -> Result<String, AllocError>
    ensures { IfOk result (λ s. string_bytes s ≡ cut 64 raw_octet_shown octets.now) }
{
    let mut sentence = String::new(alloc);
    push_cut_octets(&mut sentence, octets)?;
    Ok(sentence)
}

#[tactic(auto, using(crate::proofs::Cuts::text_word, crate::proofs::Cuts::octets_word))]
/// A word of a text as it is shown in a sentence: one line of UTF-8, cut where it is long.
pub fn shown(alloc: Global, octets: &[u8]) -> Result<String, AllocError>
    ensures { IfOk result (λ s. string_bytes s ≡ word_shown octets.now) }
{
    match str::from_utf8(octets) {
        Ok(text) => text_shown(alloc, text, WORD),
        Err(_) => octets_shown(alloc, octets),
    }
}

/// A sentence about a word of the text, with what is before the word and behind it.
pub fn about_word(
    alloc: Global,
    before: &str,
    word: &[u8],
    behind: &str,
) -> Result<String, AllocError>
    ensures { IfOk result (λ s. string_bytes s ≡ before.now ++ word_shown word.now ++ behind.now) }
{
    let word = shown(alloc, word)?;
    format!(in alloc; "{before}{word}{behind}")
}

/// A sentence about two words of the text, with what is before them, between them and behind them.
pub fn about_words(
    alloc: Global,
    before: &str,
    first: &[u8],
    between: &str,
    second: &[u8],
    behind: &str,
) -> Result<String, AllocError>
    ensures { IfOk result (λ s. string_bytes s ≡ before.now ++ word_shown first.now ++ between.now ++ word_shown
        second.now ++ behind.now) }
{
    let first = shown(alloc, first)?;
    let second = shown(alloc, second)?;
    format!(in alloc; "{before}{first}{between}{second}{behind}")
}

/// A sentence about an octet of the text, with what is before the octet and behind it.
pub fn about_octet(
    alloc: Global,
    before: &str,
    octet: u8,
    behind: &str,
) -> Result<String, AllocError>
    ensures { IfOk result (λ s. string_bytes s ≡ before.now ++ octet_shown octet ++ behind.now) }
{
    let octet = octet_shown(alloc, octet)?;
    format!(in alloc; "{before}{octet}{behind}")
}

/// An octet of a text as it is shown in a sentence: itself, or a backslash and two hexadecimal digits where it is no
/// ASCII that prints.
pub fn octet_shown(alloc: Global, octet: u8) -> Result<String, AllocError>
    ensures { IfOk result (λ s. string_bytes s ≡ octet_shown octet) }
{
    if octet < 32 || 126 < octet {
        let (high, low) = (octet / 16, octet % 16);
        return format!(in alloc; "\\{high:x}{low:x}");
    }
    let character = char::from(octet);
    format!(in alloc; "{character}")
}

/// A sentence that needs no word of the text.
pub fn said(alloc: Global, sentence: &str) -> Result<String, AllocError>
    ensures { IfOk result (λ s. string_bytes s ≡ sentence.now) }
{
    String::from_str(alloc, sentence)
}
