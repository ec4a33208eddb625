//! Reads and writes numbers as text.
ghost use Rattle.std.specs.Prelude.{◌≡◌, ◌+◌, ◌≤◌, length, take, drop};
ghost use Rattle.request_checks.specs.Numbers.{is_padded, number_of, positive_of, before_colon, behind_colon, pair_of};

use dir_entry::number_of_digits;

/// The greatest number that a text names, of an update or of a request: number_of_digits reads no greater one.
pub const GREATEST_NUMBER: u64 = 9223372036854775807;

/// Whether a text begins with a zero that other octets follow.
fn is_padded(text: &[u8]) -> bool
    ensures { result ≡ is_padded text.now }
{
    match text {
        [first, _, ..] => *first == b'0',
        _ => false,
    }
}

/// The number of a text: decimal digits without a leading zero, up to 9223372036854775807.
pub fn number_of(text: &[u8]) -> Option<u64>
    ensures { result ≡ number_of text.now }
{
    if is_padded(text) {
        None
    } else {
        number_of_digits(text)
    }
}

/// The number of a text, from 1.
fn positive_of(text: &[u8]) -> Option<u64>
    ensures { result ≡ positive_of text.now }
{
    match number_of(text) {
        Some(0) => None,
        Some(number) => Some(number),
        None => None,
    }
}

/// Where the first colon stands, or how many octets there are.
#[tactic(auto, using(crate::proofs::Colons::before_more, crate::proofs::Colons::behind_more, crate::proofs::Colons::before_here, crate::proofs::Colons::behind_here))]
fn colon_place(text: &[u8]) -> usize
    ensures within { result ≤ length text.now }
    ensures before { take result text.now ≡ before_colon text.now }
    ensures behind { drop (result + 1) text.now ≡ behind_colon text.now }
{
    for (place, octet) in text.iter().enumerate() {
        if *octet == b':' {
            return place;
        }
    }
    text.len()
}

/// What stands behind the first colon.
fn behind_colon(text: &[u8], place: usize) -> &[u8]
    requires within { place ≤ length text.now }
    ensures { result.now ≡ drop (place + 1) text.now }
{
    match &text[place..] {
        [_, rest @ ..] => rest,
        [] => b"",
    }
}

/// Two numbers from 1, of a text with a colon between them.
pub fn pair_of(text: &[u8]) -> Option<(u64, u64)>
    ensures { result ≡ pair_of text.now }
{
    let place = colon_place(text);
    match positive_of(&text[..place]) {
        Some(first) => match positive_of(behind_colon(text, place)) {
            Some(second) => Some((first, second)),
            None => None,
        },
        None => None,
    }
}
