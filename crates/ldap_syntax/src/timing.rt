//! Times as they are written.

ghost use Rattle.std.specs.Prelude.{◌≡◌};
ghost use Rattle.ldap_syntax.specs.Times.{is_time as is_time_text, is_field as is_field_text, is_year as is_year_text, is_day as is_day_text, is_clock as is_clock_text};

use ldap_words::is_digit;

/// Whether the octets are a time, `YYYYMMDDHHMMSSZ` (RFC 4517 3.3.13): a month from 01 to 12, a day from 01 to 31, an
/// hour from 00 to 23, a minute from 00 to 59, a second from 00 to 60.
pub fn is_time(value: &[u8]) -> bool
    ensures { result ≡ is_time_text value.now }
{
    match value {
        [y1, y2, y3, y4, m1, m2, d1, d2, h1, h2, i1, i2, s1, s2, z] => {
            is_year(*y1, *y2, *y3, *y4)
                && is_day(*m1, *m2, *d1, *d2)
                && is_clock(*h1, *h2, *i1, *i2, *s1, *s2)
                && *z == b'Z'
        }
        _ => false,
    }
}

fn is_year(a: u8, b: u8, x: u8, y: u8) -> bool
    ensures { result ≡ is_year_text a b x y }
{
    is_digit(a) && is_digit(b) && is_digit(x) && is_digit(y)
}

/// Whether the digits are a month's and a day's.
fn is_day(m1: u8, m2: u8, d1: u8, d2: u8) -> bool
    ensures { result ≡ is_day_text m1 m2 d1 d2 }
{
    is_field(1, 12, m1, m2) && is_field(1, 31, d1, d2)
}

/// Whether the digits are an hour's, a minute's and a second's.
fn is_clock(h1: u8, h2: u8, i1: u8, i2: u8, s1: u8, s2: u8) -> bool
    ensures { result ≡ is_clock_text h1 h2 i1 i2 s1 s2 }
{
    is_field(0, 23, h1, h2) && is_field(0, 59, i1, i2) && is_field(0, 60, s1, s2)
}

/// Whether two digits write a number from `low` to `high`.
fn is_field(low: u8, high: u8, a: u8, b: u8) -> bool
    ensures { result ≡ is_field_text low high a b }
{
    if !is_digit(a) || !is_digit(b) {
        return false;
    }
    let number = (a - b'0') * 10 + (b - b'0');
    low <= number && number <= high
}
