//! Says how many octets a row or a number takes. A length of 2^32 stands for each greater one.

ghost use Rattle.std.specs.Prelude.{◌≡◌, ℕ, ◌^◌, length, map, min};
ghost use Rattle.ldap_ber.specs.Element.{element_bytes};
ghost use Rattle.ldap_ber.specs.Rows.{row_bytes};
ghost use Rattle.ldap_ber.specs.Written.{number_bytes};

use crate::measuring::{add_lengths, element_length, integer_length};

/// How many octets a number takes that is not below zero.
pub fn number_length(number: u32) -> usize
    ensures { (first : ℕ) → result ≡ length (number_bytes first number) }
{
    integer_length(i64::from(number))
}

/// How many octets octet strings of first octet 04 take, one after the other; 2^32 where there are
/// more.
pub fn values_length(values: &[Vec<u8>]) -> usize
    ensures { result ≡ min (length (row_bytes (element_bytes 4) (map (λ v. v.items) values.now)))
        (2 ^ 32) }
{
    let mut total = 0;
    for value in values {
        total = add_lengths(total, element_length(value.as_slice().len()));
    }
    total
}
