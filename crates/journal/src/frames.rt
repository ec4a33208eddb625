//! Writes frames and reads them: a string with its length and the number of its octets that aren't zero.
ghost use Rattle.std.specs.Prelude.{◌≡◌, ◌<◌, ◌≤◌, ◌+◌, ◌%◌, ◌^◌, ◌++◌, ◌∷◌, [], nat_le, ◌&&◌, true, false, length, vec_len, vec_capacity, drop, OnOk, OnErr, IfSome, IfNone};
ghost use Rattle.journal.specs.Frames.{are_digits, digits, number, nonzeros, frame, head_length, is_whole, body_at, after};

use std::alloc::AllocError;

/// How many octets stand before a string: its length and the number of its octets that aren't zero, five digits each.
pub const FRAME_HEADER: usize = 10;

/// How many of these octets aren't zero.
pub fn nonzeros(octets: &[u8]) -> u64
    ensures { result ≡ nonzeros octets.now }
{
    let mut count = 0u64;
    for octet in octets {
        if *octet != 0 {
            count += 1;
        }
    }
    count
}

/// Seven bits, below a bit that is set.
fn digit(number: u64) -> u8
    ensures { result ≡ 128 + number % 128 }
{
    128 + (number % 128) as u8
}

/// The number of five digits.
fn number(a: u8, b: u8, c: u8, d: u8, e: u8) -> u64
    ensures { result ≡ number (a ∷ b ∷ c ∷ d ∷ e ∷ []) }
{
    let low = a.saturating_sub(128) as u64 + 128 * b.saturating_sub(128) as u64;
    let high = d.saturating_sub(128) as u64 + 128 * e.saturating_sub(128) as u64;
    low + 16_384 * c.saturating_sub(128) as u64 + 2_097_152 * high
}

/// Adds a number in five digits. Its only error is want of memory, where there is no room.
fn put_number(out: &mut Vec<u8>, number: u64) -> Result<(), AllocError>
    ensures ok { OnOk result (out.new.items ≡ out.old.items ++ digits 5 number) }
    ensures len { OnOk result (vec_len out.new ≡ vec_len out.old + 5) }
    ensures capacity { vec_capacity out.old ≤ vec_capacity out.new }
    ensures full { OnErr result (vec_capacity out.old < vec_len out.old + 5) }
    ensures kept { out.new.items ≡ out.old.items ++ drop (length out.old.items) out.new.items }
{
    let second = number / 128;
    let third = second / 128;
    let fourth = third / 128;
    let fifth = fourth / 128;
    out.extend_from_slice(&[
        digit(number),
        digit(second),
        digit(third),
        digit(fourth),
        digit(fifth),
    ])
}

/// Adds the frame of a string, or a part of it. Its only error is want of memory, where there is no room.
fn put_frame(out: &mut Vec<u8>, string: &[u8]) -> Result<(), AllocError>
    ensures ok { OnOk result (out.new.items ≡ out.old.items ++ frame string.now) }
    ensures capacity { vec_capacity out.old ≤ vec_capacity out.new }
    ensures full { OnErr result (vec_capacity out.old < vec_len out.old + (10 + length string.now)) }
    ensures kept { out.new.items ≡ out.old.items ++ drop (length out.old.items) out.new.items }
{
    put_number(out, string.len() as u64)?;
    put_number(out, nonzeros(string))?;
    out.extend_from_slice(string)
}

/// Adds the frame of a string. At an error, which is want of memory, nothing has changed; where there is room for the
/// frame, there is none.
pub fn put_string(out: &mut Vec<u8>, string: &[u8]) -> Result<(), AllocError>
    ensures ok { OnOk result (out.new.items ≡ out.old.items ++ frame string.now) }
    ensures err { OnErr result (out.new.items ≡ out.old.items) }
    ensures full { OnErr result (vec_capacity out.old < vec_len out.old + (10 + length string.now)) }
{
    let before = out.len();
    match put_frame(out, string) {
        Ok(()) => Ok(()),
        Err(error) => {
            out.truncate(before);
            Err(error)
        }
    }
}

/// The string of the frame at the front, and the octets behind it; none where the front isn't a whole frame.
pub fn next_string(octets: &[u8]) -> Option<(&[u8], &[u8])>
    ensures whole { IfSome result (λ p. is_whole octets.now ≡ true) }
    ensures string { IfSome result (λ p. p.0.now ≡ body_at octets.now) }
    ensures behind { IfSome result (λ p. p.1.now ≡ after octets.now) }
    ensures none { IfNone result (is_whole octets.now ≡ false) }
{
    let [a, b, c, d, e, f, g, h, i, j, rest @ ..] = octets else {
        return None;
    };
    if !are_digits(*a, *b, *c, *d, *e) || !are_digits(*f, *g, *h, *i, *j) {
        return None;
    }
    let length = number(*a, *b, *c, *d, *e);
    if length > rest.len() as u64 {
        return None;
    }
    let (string, behind) = rest.split_at(length as usize);
    if nonzeros(string) == number(*f, *g, *h, *i, *j) {
        Some((string, behind))
    } else {
        None
    }
}

/// How many octets the frame at the front has, as its header says; none where no whole header stands there.
pub fn announced(octets: &[u8]) -> Option<u64>
    ensures some { IfSome result (λ n. n ≡ 10 + head_length octets.now) }
    ensures header { IfSome result (λ n. 10 ≤ length octets.now) }
    ensures none { IfNone result (are_digits 10 octets.now ≡ false) }
{
    let [a, b, c, d, e, f, g, h, i, j, ..] = octets else {
        return None;
    };
    if !are_digits(*a, *b, *c, *d, *e) || !are_digits(*f, *g, *h, *i, *j) {
        return None;
    }
    Some(FRAME_HEADER as u64 + number(*a, *b, *c, *d, *e))
}

/// How long the string of the frame at the front is; none where the front isn't a whole frame.
pub fn string_size(octets: &[u8]) -> Option<usize>
    ensures whole { IfSome result (λ n. is_whole octets.now ≡ true) }
    ensures size { IfSome result (λ n. n ≡ length (body_at octets.now)) }
    ensures none { IfNone result (is_whole octets.now ≡ false) }
{
    match next_string(octets) {
        Some((string, _)) => Some(string.len()),
        None => None,
    }
}

/// Whether all five have their top bit set.
fn are_digits(a: u8, b: u8, c: u8, d: u8, e: u8) -> bool
    ensures { result ≡ (nat_le 128 a && (nat_le 128 b && (nat_le 128 c && (nat_le 128 d && nat_le 128 e)))) }
{
    128 <= a && (128 <= b && (128 <= c && (128 <= d && 128 <= e)))
}
