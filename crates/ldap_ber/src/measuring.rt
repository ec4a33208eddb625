//! Says how many octets an element takes, before any of it is written. A length of 2^32 stands for each greater one:
//! none of these is ever written.

ghost use Rattle.std.specs.Prelude.{◌≡◌, ℕ, ◌+◌, ◌^◌, List, length, min};
ghost use Rattle.ldap_ber.specs.Element.{length_octets, element_bytes};
ghost use Rattle.ldap_ber.specs.Values.{integer_octets};

use crate::writing::{sign_and_bits, width};

/// One more than the greatest length that four octets say.
const TOO_LONG: usize = 0x1_0000_0000;

/// The sum of two lengths; 2^32 where it is greater.
pub fn add_lengths(a: usize, b: usize) -> usize
    ensures { result ≡ min (a + b) (2 ^ 32) }
{
    a.saturating_add(b).min(TOO_LONG)
}

/// How many octets stand before a content of this length: the first octet and the length.
pub fn head_length(len: usize) -> usize
    ensures { result ≡ 1 + length (length_octets len) }
{
    match len {
        0..0x80 => 2,
        0x80..0x100 => 3,
        0x100..0x1_0000 => 4,
        0x1_0000..0x100_0000 => 5,
        _ => 6,
    }
}

/// How many octets an element takes whose content has this length; 2^32 where there are more.
pub fn element_length(content: usize) -> usize
    ensures { (first : ℕ) (octets : List ℕ)
        → min content (2 ^ 32) ≡ min (length octets) (2 ^ 32)
        → result ≡ min (length (element_bytes first octets)) (2 ^ 32) }
{
    add_lengths(content, head_length(content))
}

/// How many octets the element of an integer takes.
pub fn integer_length(value: i64) -> usize
    ensures { (first : ℕ) → result ≡ length (element_bytes first (integer_octets value)) }
{
    let (_, bits) = sign_and_bits(value);
    width(bits) + 2
}
