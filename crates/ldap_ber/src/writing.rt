//! Writes the shortest spelling of an element.

ghost use Rattle.std.specs.Prelude.{◌≡◌, ℕ, ℤ, ◌+◌, ◌^◌, ◌%◌, ◌<◌, ◌≤◌, ◌↔◌, ◌++◌, ◌∷◌, ◌⊎◌, List, length, OnOk, OnErr, IfErr, IsErrOf, vec_len, vec_capacity};
ghost use Rattle.ldap_ber.specs.Element.{IsLength, IsElement, length_octets, element_bytes};
ghost use Rattle.ldap_ber.specs.Values.{IsInteger, IsLong, width, digits, signed, is_below, bits_of, integer_octets};

use crate::fault::WriteError;
use crate::measuring::head_length;

/// The greatest length that four octets say.
const MAX_CONTENT: usize = 0xffff_ffff;

/// Writes the shortest octets of a length, where there is room.
fn put_length(len: usize, out: &mut Vec<u8>)
    requires small { len < 2 ^ 32 }
    requires room { vec_len out.old + length (length_octets len) ≤ vec_capacity out.old }
    ensures items { out.new.items ≡ out.old.items ++ length_octets len }
    ensures capacity { vec_capacity out.new ≡ vec_capacity out.old }
{
    if len < 0x80 {
        out.push_reserved(len as u8);
    } else if len < 0x100 {
        out.push_reserved(0x81);
        out.push_reserved(len as u8);
    } else if len < 0x1_0000 {
        out.push_reserved(0x82);
        out.push_reserved((len / 0x100) as u8);
        out.push_reserved((len % 0x100) as u8);
    } else if len < 0x100_0000 {
        out.push_reserved(0x83);
        out.push_reserved((len / 0x1_0000) as u8);
        out.push_reserved((len / 0x100 % 0x100) as u8);
        out.push_reserved((len % 0x100) as u8);
    } else {
        out.push_reserved(0x84);
        out.push_reserved((len / 0x100_0000) as u8);
        out.push_reserved((len / 0x1_0000 % 0x100) as u8);
        out.push_reserved((len / 0x100 % 0x100) as u8);
        out.push_reserved((len % 0x100) as u8);
    }
}

/// Writes what stands before a content of this length: the first octet, whose tag number is below 31,
/// and the length in the shortest form (X.690 8.1.3). E3 where the length is over 4294967295. An `Err`
/// changes nothing.
pub fn write_head(first: u8, len: usize, out: &mut Vec<u8>) -> Result<(), WriteError>
    requires { first % 32 < 31 }
    ensures ok { OnOk result (out.new.items ≡ out.old.items ++ first ∷ length_octets len) }
    ensures too_long { IsErrOf result WriteError.TooLong ↔ (2 ^ 32 ≤ len) }
    ensures err { OnErr result (out.new.items ≡ out.old.items) }
{
    if len > MAX_CONTENT {
        return Err(WriteError::TooLong);
    }
    if out.try_reserve(head_length(len)).is_err() {
        return Err(WriteError::NoMemory);
    }
    out.push_reserved(first);
    put_length(len, out);
    Ok(())
}

/// Writes an element at the end, its length in the shortest form (X.690 8.1.3). The first octet's tag
/// number is below 31. E3 where the content is over 4294967295 octets. An `Err` changes nothing.
pub fn write(first: u8, content: &[u8], out: &mut Vec<u8>) -> Result<(), WriteError>
    requires { first % 32 < 31 }
    ensures ok { OnOk result (out.new.items ≡ out.old.items ++ element_bytes first content.now) }
    ensures too_long { IsErrOf result WriteError.TooLong ↔ (2 ^ 32 ≤ length content.now) }
    ensures err { OnErr result (out.new.items ≡ out.old.items) }
{
    let len = content.len();
    if len > MAX_CONTENT {
        return Err(WriteError::TooLong);
    }
    if out.try_reserve(head_length(len) + len).is_err() {
        return Err(WriteError::NoMemory);
    }
    out.push_reserved(first);
    put_length(len, out);
    out.extend_from_slice(content).unwrap();
    Ok(())
}

/// What is written is an element, and no other spelling of it is as short.
pub fn shortest()
    ensures { (first : ℕ) (content : List ℕ) → first % 32 < 31 → length content < 2 ^ 32
        → IsElement (element_bytes first content) first content
        × ((other : List ℕ) → IsElement other first content → (other ≡ element_bytes first content)
        ⊎ (length (element_bytes first content) < length other)) }
{}

/// How many octets an integer takes whose bits after the sign are these.
pub fn width(bits: u64) -> usize
    ensures { result ≡ width bits }
{
    match bits {
        0..0x80 => 1,
        0x80..0x8000 => 2,
        0x8000..0x80_0000 => 3,
        0x80_0000..0x8000_0000 => 4,
        0x8000_0000..0x80_0000_0000 => 5,
        0x80_0000_0000..0x8000_0000_0000 => 6,
        0x8000_0000_0000..0x80_0000_0000_0000 => 7,
        _ => 8,
    }
}

/// Whether an integer is below zero, and its bits after the sign, turned where it is.
pub fn sign_and_bits(value: i64) -> (bool, u64)
    ensures sign { result.0 ≡ is_below value }
    ensures bits { result.1 ≡ bits_of value }
{
    if value < 0 {
        (true, (-1 - value) as u64)
    } else {
        (false, value as u64)
    }
}

/// Writes the last so many octets of a number, each of their bits turned where the integer is below
/// zero, where there is room.
fn put_digits(count: usize, bits: u64, negative: bool, out: &mut Vec<u8>)
    requires { vec_len out.old + count ≤ vec_capacity out.old }
    ensures items { out.new.items ≡ out.old.items ++ signed negative (digits count bits) }
    ensures len { vec_len out.new ≡ vec_len out.old + count }
    ensures capacity { vec_capacity out.new ≡ vec_capacity out.old }
{
    if count > 0 {
        put_digits(count - 1, bits / 0x100, negative, out);
        let octet = (bits % 0x100) as u8;
        if negative {
            out.push_reserved(255 - octet);
        } else {
            out.push_reserved(octet);
        }
    }
}

/// Writes an integer at the end, in the shortest two's complement (X.690 8.3). The first octet's tag
/// number is below 31. An `Err` is want of memory, and changes nothing.
pub fn write_integer(first: u8, value: i64, out: &mut Vec<u8>) -> Result<(), WriteError>
    requires { first % 32 < 31 }
    ensures ok { OnOk result (out.new.items ≡ out.old.items ++ element_bytes first (integer_octets value)) }
    ensures no_memory { IfErr result (λ e. e ≡ WriteError.NoMemory) }
    ensures err { OnErr result (out.new.items ≡ out.old.items) }
{
    let (negative, bits) = sign_and_bits(value);
    let count = width(bits);
    if out.try_reserve(count + 2).is_err() {
        return Err(WriteError::NoMemory);
    }
    out.push_reserved(first);
    out.push_reserved(count as u8);
    put_digits(count, bits, negative, out);
    Ok(())
}

/// What is written for an integer of 64 bits is its content.
pub fn shortest_integer()
    ensures { (z : ℤ) → IsLong z → IsInteger (integer_octets z) z }
{}
