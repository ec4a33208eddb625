//! Reads whole numbers.

ghost use Rattle.std.specs.Prelude.{◌≡◌, ◌≤◌, IfSome};
ghost use Rattle.ldap_words.specs.Numbers.{is_digit as is_digit_octet, are_digits as are_digit_octets, is_whole as is_whole_number, is_number as is_number_text, is_integer as is_integer_text, greatest, with_digit as number_with_digit, number_of_digits as number_of};

/// Whether the octet is a decimal digit.
pub fn is_digit(octet: u8) -> bool
    ensures { result ≡ is_digit_octet octet }
{
    b'0' <= octet && octet <= b'9'
}

/// Whether all octets are decimal digits.
fn are_digits(octets: &[u8]) -> bool
    ensures { result ≡ are_digit_octets octets.now }
{
    octets.iter().all(|octet| is_digit(*octet))
}

/// Whether the octets are digits of which the first is not 0.
fn is_whole(digits: &[u8]) -> bool
    ensures { result ≡ is_whole_number digits.now }
{
    match digits {
        [] => false,
        [first, rest @ ..] => b'0' < *first && *first <= b'9' && are_digits(rest),
    }
}

/// Whether the octets are a number without leading zeros (RFC 4512 1.4, number).
pub fn is_number(digits: &[u8]) -> bool
    ensures { result ≡ is_number_text digits.now }
{
    match digits {
        [] => false,
        [only] => is_digit(*only),
        [_, _, ..] => is_whole(digits),
    }
}

/// Whether the octets are an integer's: no leading zeros, and no `-0` (RFC 4517 3.3.16).
pub fn is_integer(value: &[u8]) -> bool
    ensures { result ≡ is_integer_text value.now }
{
    match value {
        [] => false,
        [first, rest @ ..] => {
            if *first == b'-' {
                is_whole(rest)
            } else {
                is_number(value)
            }
        }
    }
}

/// A number with one more digit.
fn with_digit(number: u64, octet: u8) -> Option<u64>
    requires { number ≤ greatest }
    ensures longer { result ≡ number_with_digit number octet }
    ensures small { IfSome result (λ longer. longer ≤ greatest) }
{
    if !is_digit(octet) {
        return None;
    }
    let digit = u64::from(octet) - 48;
    if number <= (9223372036854775807 - digit) / 10 {
        Some(10 * number + digit)
    } else {
        None
    }
}

/// The number that decimal digits write, leading zeros or not, up to 9223372036854775807; none, where there is another
/// octet or no digit.
#[tactic(auto, using(crate::proofs::Numbers::digit_more, crate::proofs::Numbers::number_is))]
pub fn number_of_digits(text: &[u8]) -> Option<u64>
    ensures { result ≡ number_of text.now }
{
    if text.is_empty() {
        return None;
    }
    let mut number = 0;
    for octet in text {
        match with_digit(number, *octet) {
            Some(longer) => number = longer,
            None => return None,
        }
    }
    Some(number)
}
