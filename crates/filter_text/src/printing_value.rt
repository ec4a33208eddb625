//! Prints one value at the end of a buffer.

ghost use Rattle.std.specs.Prelude.{◌≡◌, ◌++◌, ◌∷◌, [], ◌<◌, ◌≤◌, false, true, take, drop, length, string_bytes, IfOk, OnOk, MatchOption};
ghost use Rattle.std.specs.List.{list_all};
ghost use Rattle.std.specs.Str.{is_utf8};
ghost use Rattle.filter_text.specs.Values as values;

use std::alloc::AllocError;

/// Whether the octet stands for itself in a value (RFC 4515 3, normal).
pub fn is_normal(octet: u8) -> bool
    ensures { result ≡ values.is_normal octet }
{
    (1 <= octet && octet <= 39) || (43 <= octet && octet <= 91) || 93 <= octet
}

/// The digit of a number below 16.
fn digit(number: u8) -> u8
    requires { number < 16 }
    ensures value { result ≡ values.digit number }
    ensures ascii { result < 128 }
{
    if number < 10 {
        b'0' + number
    } else {
        b'a' - 10 + number
    }
}

/// Puts an ASCII octet.
fn put_ascii(out: &mut String, octet: u8) -> Result<(), AllocError>
    requires { octet < 128 }
    ensures ok { OnOk result (string_bytes out.new ≡ string_bytes out.old ++ octet ∷ []) }
    ensures kept { string_bytes out.new ≡ string_bytes out.old ++ drop (length (string_bytes out.old))
        (string_bytes out.new) }
{
    out.push(char::from(octet))
}

/// Puts an octet behind a backslash.
fn put_escape(out: &mut String, octet: u8) -> Result<(), AllocError>
    ensures ok { OnOk result (string_bytes out.new ≡ string_bytes out.old ++ values.escape octet) }
    ensures kept { string_bytes out.new ≡ string_bytes out.old ++ drop (length (string_bytes out.old))
        (string_bytes out.new) }
{
    out.push('\\')?;
    put_ascii(out, digit(octet / 16))?;
    put_ascii(out, digit(octet % 16))
}

/// Puts an octet that is no part of a character of several octets.
fn put_alone(out: &mut String, octet: u8) -> Result<(), AllocError>
    ensures ok { OnOk result (string_bytes out.new ≡ string_bytes out.old ++ values.put_alone octet) }
    ensures kept { string_bytes out.new ≡ string_bytes out.old ++ drop (length (string_bytes out.old))
        (string_bytes out.new) }
{
    if octet < 128 && is_normal(octet) {
        put_ascii(out, octet)
    } else {
        put_escape(out, octet)
    }
}

/// Whether no octet is ASCII.
fn are_high(octets: &[u8]) -> bool
    ensures { result ≡ list_all values.is_high octets.now }
{
    octets.iter().all(|octet| 128 <= *octet)
}

/// The octets as text.
fn text_of(octets: &[u8]) -> Option<&str>
    ensures { MatchOption result (is_utf8 octets.now ≡ false)
        (λ t. (is_utf8 octets.now ≡ true) × (t.now ≡ octets.now)) }
{
    match std::str::from_utf8(octets) {
        Ok(text) => Some(text),
        Err(_) => None,
    }
}

/// The first octets, so many, where they are UTF-8 and none is ASCII.
fn front(octets: &[u8], count: usize) -> Option<&str>
    ensures { MatchOption result (values.is_character count octets.now ≡ false)
        (λ t. (values.is_character count octets.now ≡ true) × (t.now ≡ take count octets.now)) }
{
    if octets.len() < count {
        return None;
    }
    let front = &octets[..count];
    if !are_high(front) {
        return None;
    }
    text_of(front)
}

/// The character at the front, where it has more octets than one.
fn character(octets: &[u8]) -> Option<&str>
    ensures { MatchOption result (values.character_len octets.now ≡ 0)
        (λ t. (values.character_len octets.now ≡ length t.now) × (values.is_character (length t.now) octets.now ≡
        true) × (0 < length t.now)
        × (t.now ≡ take (length t.now) octets.now)) }
{
    if let Some(text) = front(octets, 2) {
        return Some(text);
    }
    if let Some(text) = front(octets, 3) {
        return Some(text);
    }
    front(octets, 4)
}

/// Puts the first character, or the first octet, and answers how many octets it had.
fn put_first(out: &mut String, octets: &[u8]) -> Result<usize, AllocError>
    requires { 0 < length octets.now }
    ensures ok { IfOk result (λ n. (0 < n) × (n ≤ length octets.now)
        × (string_bytes out.new ++ values.printed_from 0 (drop n octets.now) ≡ string_bytes
        out.old ++ values.printed_from 0 octets.now)) }
    ensures kept { string_bytes out.new ≡ string_bytes out.old ++ drop (length (string_bytes out.old))
        (string_bytes out.new) }
{
    match character(octets) {
        Some(text) => {
            out.push_str(text)?;
            Ok(text.len())
        }
        None => {
            put_alone(out, octets[0])?;
            Ok(1)
        }
    }
}

/// Puts a value.
pub fn put_value(out: &mut String, value: &[u8]) -> Result<(), AllocError>
    ensures ok { OnOk result (string_bytes out.new ≡ string_bytes out.old ++ values.printed_value value.now) }
    ensures kept { string_bytes out.new ≡ string_bytes out.old ++ drop (length (string_bytes out.old))
        (string_bytes out.new) }
{
    let mut rest = value;
    while !rest.is_empty() {
        let count = put_first(out, rest)?;
        rest = &rest[count..];
    }
    Ok(())
}
