//! Reads hexadecimal digits.

ghost use Rattle.std.specs.Prelude.{◌≡◌, ◌<◌, IfSome};
ghost use Rattle.ldap_words.specs.Hexadecimal.{hex_digit as hex_digit_of, hex_octet as hex_octet_of};

/// The value of a hexadecimal digit in either case, below 16 (RFC 4512 1.4, HEX).
pub fn hex_digit(octet: u8) -> Option<u8>
    ensures value { result ≡ hex_digit_of octet }
    ensures bound { IfSome result (λ d. d < 16) }
{
    if b'0' <= octet && octet <= b'9' {
        Some(octet - b'0')
    } else if b'A' <= octet && octet <= b'F' {
        Some(octet - (b'A' - 10))
    } else if b'a' <= octet && octet <= b'f' {
        Some(octet - (b'a' - 10))
    } else {
        None
    }
}

/// The octet that two hexadecimal digits spell.
pub fn hex_octet(high: u8, low: u8) -> Option<u8>
    ensures { result ≡ hex_octet_of high low }
{
    let high = hex_digit(high)?;
    let low = hex_digit(low)?;
    Some(high * 16 + low)
}
