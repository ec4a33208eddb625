//! Spells the fields of a note, and reads them.
ghost use Rattle.std.specs.Prelude.{◌≡◌, ◌+◌, ◌≤◌, ◌<◌, ◌++◌, [], length, vec_len, vec_capacity, true, false, IfOk, OnOk, OnErr, IfSome, MatchOption};
ghost use Rattle.std.specs.Str.{bytes_eq};
ghost use Rattle.log_journal.specs.Fields.{body_of, fields_at, fields_of, front_of, is_summed, number_at, number_octets, numeral, string_of, sum_of};
ghost use Rattle.log_journal.specs.Views.{fields_view};

use sha2::{Digest, Sha256};
use std::alloc::{AllocError, Global};

/// How many octets a sum has.
const SUM: usize = 8;

/// Where the five numbers end.
const NUMBERS_END: usize = 41;

/// The least length of a string: a kind, five numbers and a sum.
pub const LEAST: usize = 49;

/// The fields of a note.
#[derive(Clone, Copy)]
pub struct Fields<'a> {
    /// Which note it is.
    pub kind: u8,
    pub first: u64,
    pub second: u64,
    pub third: u64,
    pub fourth: u64,
    pub fifth: u64,
    /// What follows the numbers.
    pub rest: &'a [u8],
}

/// The sum of octets.
#[tactic(auto, unfolding(crate::specs::Fields::sum_of))]
fn sum_of(octets: &[u8]) -> u64
    ensures { result ≡ sum_of octets.now }
{
    let digest = Sha256::digest(octets);
    number_at(&digest, 0)
}

#[tactic(auto, unfolding(crate::specs::Fields::numeral))]
/// The octets of a number.
fn numeral(number: u64) -> [u8; 8]
    ensures { result ≡ numeral number }
{
    number.to_be_bytes()
}

/// Adds a number. Its only error is want of memory, where there is no room.
fn put_number(out: &mut Vec<u8>, number: u64) -> Result<(), AllocError>
    ensures ok { OnOk result (out.new.items ≡ out.old.items ++ numeral number) }
    ensures len { OnOk result (vec_len out.new ≡ vec_len out.old + 8) }
    ensures capacity { vec_capacity out.old ≤ vec_capacity out.new }
    ensures full { OnErr result (vec_capacity out.old < vec_len out.old + 8) }
{
    let octets = numeral(number);
    out.extend_from_slice(&octets)
}

/// Adds the five numbers. Its only error is want of memory, where there is no room.
fn put_numbers(out: &mut Vec<u8>, fields: &Fields<'_>) -> Result<(), AllocError>
    ensures ok { OnOk result (out.new.items ≡ out.old.items ++ number_octets (fields_view fields.now)) }
    ensures len { OnOk result (vec_len out.new ≡ vec_len out.old + 40) }
    ensures capacity { vec_capacity out.old ≤ vec_capacity out.new }
    ensures full { OnErr result (vec_capacity out.old < vec_len out.old + 40) }
{
    put_number(out, fields.first)?;
    put_number(out, fields.second)?;
    put_number(out, fields.third)?;
    put_number(out, fields.fourth)?;
    put_number(out, fields.fifth)?;
    Ok(())
}

/// Adds what stands in front of the sum. Its only error is want of memory, where there is no room.
fn put_body(out: &mut Vec<u8>, fields: &Fields<'_>) -> Result<(), AllocError>
    ensures ok { OnOk result (out.new.items ≡ out.old.items ++ body_of (fields_view fields.now)) }
    ensures len { OnOk result (vec_len out.new ≡ vec_len out.old + (41 + length fields.now.rest.now)) }
    ensures capacity { vec_capacity out.old ≤ vec_capacity out.new }
    ensures full { OnErr result (vec_capacity out.old < vec_len out.old + (41 + length fields.now.rest.now)) }
{
    out.push(fields.kind)?;
    put_numbers(out, fields)?;
    out.extend_from_slice(fields.rest)?;
    Ok(())
}

/// Spells a note into a buffer that is empty. Its only error is want of memory, where the buffer has no room for it.
pub fn spell_fields(out: &mut Vec<u8>, fields: &Fields<'_>) -> Result<(), AllocError>
    requires empty { out.old.items ≡ [] }
    ensures ok { OnOk result (out.new.items ≡ string_of (fields_view fields.now)) }
    ensures full { OnErr result (vec_capacity out.old < 49 + length fields.now.rest.now) }
{
    put_body(out, fields)?;
    let sum = sum_of(out.as_slice());
    put_number(out, sum)?;
    Ok(())
}

/// The string of a note. Its only error is want of memory.
pub fn write_fields(alloc: Global, fields: &Fields<'_>) -> Result<Vec<u8>, AllocError>
    ensures { IfOk result (λ string. string.items ≡ string_of (fields_view fields.now)) }
{
    let mut string = Vec::new(alloc);
    spell_fields(&mut string, fields)?;
    Ok(string)
}

/// The number in the eight octets from a place on.
fn number_at(octets: &[u8], at: usize) -> u64
    requires { at + 8 ≤ length octets.now }
    ensures { result ≡ number_at at octets.now }
{
    let mut word = [0; 8];
    word.copy_from_slice(&octets[at..at + 8]);
    u64::from_be_bytes(word)
}

/// The fields of the octets in front of a sum.
fn fields_of(body: &[u8]) -> Fields<'_>
    requires { 41 ≤ length body.now }
    ensures { fields_view result ≡ fields_of body.now }
{
    let (_, rest) = body.split_at(NUMBERS_END);
    Fields {
        kind: body[0],
        first: number_at(body, 1),
        second: number_at(body, 9),
        third: number_at(body, 17),
        fourth: number_at(body, 25),
        fifth: number_at(body, 33),
        rest,
    }
}

/// Whether octets are the sum of those in front of them.
fn is_sum(body: &[u8], sum: &[u8]) -> bool
    ensures { result ≡ bytes_eq sum.now (numeral (sum_of body.now)) }
{
    let octets = numeral(sum_of(body));
    sum == octets.as_slice()
}

/// The octets in front of the sum of a string; none where they aren't all there, or the sum isn't theirs.
fn front_of(string: &[u8]) -> Option<&[u8]>
    ensures front { MatchOption result (is_summed string.now ≡ false) (λ body. (is_summed string.now ≡ true)
        × (body.now ≡ front_of string.now)) }
    ensures long { IfSome result (λ body. 41 ≤ length body.now) }
{
    if string.len() < LEAST {
        return None;
    }
    let (body, sum) = string.split_at(string.len() - SUM);
    if is_sum(body, sum) { Some(body) } else { None }
}

/// The fields of a string; none where they aren't all there, or the sum isn't theirs.
pub fn read_fields(string: &[u8]) -> Option<Fields<'_>>
    ensures { MatchOption result (fields_at string.now ≡ None) (λ f. fields_at string.now ≡ Some (fields_view f)) }
{
    match front_of(string) {
        Some(body) => Some(fields_of(body)),
        None => None,
    }
}
