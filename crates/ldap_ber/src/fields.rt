//! Reads one field.

ghost use Rattle.std.specs.Prelude.{◌≡◌, ℕ, ℤ, ◌<◌, List, Bool, IfOk, IfErr, string_bytes, pos};
ghost use Rattle.std.specs.Str.{IsUtf8};
ghost use Rattle.ldap_ber.specs.Values.{IsInteger, IsBoolean};
ghost use Rattle.ldap_ber.specs.Fields.{HasField, HasText, HasNumber, HasInteger, HasFlag};
ghost use Rattle.ldap_ber.specs.Faults.{IsPlainFault};

use crate::message_fault::MsgFault;
use crate::read_element::Element;
use crate::reading::read;
use crate::values::{boolean, integer};
use std::alloc::Global;

/// The element at the front, and the octets after it; E8 where none is there.
pub fn element(octets: &[u8]) -> Result<(Element<'_>, &[u8]), MsgFault>
    ensures found { IfOk result (λ x. HasField octets.now x.0.first x.0.content.now x.1.now) }
    ensures fault { IfErr result (λ e. IsPlainFault e ((first : ℕ) × (content rest : List ℕ)
        × HasField octets.now first content rest)) }
{
    match read(octets) {
        Ok(read) => Ok(read),
        Err(_) => Err(MsgFault::NotAMessage),
    }
}

/// The content of an element of this first octet, and the octets after it; E8 where none is there.
pub fn field(first: u8, octets: &[u8]) -> Result<(&[u8], &[u8]), MsgFault>
    ensures found { IfOk result (λ x. HasField octets.now first x.0.now x.1.now) }
    ensures fault { IfErr result (λ e. IsPlainFault e ((content rest : List ℕ)
        × HasField octets.now first content rest)) }
{
    let (element, rest) = element(octets)?;
    if element.first != first {
        return Err(MsgFault::NotAMessage);
    }
    Ok((element.content, rest))
}

/// A copy of octets as text; E8 where they are not UTF-8 (RFC 4511 4.1.2).
pub fn text(alloc: Global, content: &[u8]) -> Result<String, MsgFault>
    ensures found { IfOk result (λ s. (string_bytes s ≡ content.now) × IsUtf8 content.now) }
    ensures fault { IfErr result (λ e. IsPlainFault e (IsUtf8 content.now)) }
{
    match str::from_utf8(content) {
        Ok(text) => Ok(String::from_str(alloc, text)?),
        Err(_) => Err(MsgFault::NotAMessage),
    }
}

/// The number below a limit whose content this is.
fn number(limit: u32, content: &[u8]) -> Result<u32, MsgFault>
    ensures found { IfOk result (λ n. IsInteger content.now (pos n) × (n < limit)) }
    ensures fault { IfErr result (λ e. IsPlainFault e ((n : ℕ) × IsInteger content.now (pos n)
        × (n < limit))) }
{
    match integer(content) {
        Ok(n) => {
            if n < 0 || n >= limit as i64 {
                return Err(MsgFault::NotAMessage);
            }
            Ok(n as u32)
        }
        Err(_) => Err(MsgFault::NotAMessage),
    }
}

/// The integer of at most eight octets whose content this is; E8 where there is none.
pub fn small_integer(content: &[u8]) -> Result<i64, MsgFault>
    ensures found { IfOk result (IsInteger content.now) }
    ensures fault { IfErr result (λ e. IsPlainFault e ((z : ℤ) × IsInteger content.now z)) }
{
    match integer(content) {
        Ok(z) => Ok(z),
        Err(_) => Err(MsgFault::NotAMessage),
    }
}

/// The boolean whose content this is.
fn flag(content: &[u8]) -> Result<bool, MsgFault>
    ensures found { IfOk result (IsBoolean content.now) }
    ensures fault { IfErr result (λ e. IsPlainFault e ((b : Bool) × IsBoolean content.now b)) }
{
    match boolean(content) {
        Ok(b) => Ok(b),
        Err(_) => Err(MsgFault::NotAMessage),
    }
}

/// The text of a field, and the octets after it.
pub fn text_field(alloc: Global, first: u8, octets: &[u8]) -> Result<(String, &[u8]), MsgFault>
    ensures found { IfOk result (λ x. HasText octets.now first (string_bytes x.0) x.1.now) }
    ensures fault { IfErr result (λ e. IsPlainFault e ((t rest : List ℕ)
        × HasText octets.now first t rest)) }
{
    let (content, rest) = field(first, octets)?;
    let text = text(alloc, content)?;
    Ok((text, rest))
}

/// The content of a field, copied, and the octets after it.
pub fn octets_field(alloc: Global, first: u8, octets: &[u8]) -> Result<(Vec<u8>, &[u8]), MsgFault>
    ensures found { IfOk result (λ x. HasField octets.now first x.0.items x.1.now) }
    ensures fault { IfErr result (λ e. IsPlainFault e ((v rest : List ℕ)
        × HasField octets.now first v rest)) }
{
    let (content, rest) = field(first, octets)?;
    let content = Vec::from_slice(alloc, content)?;
    Ok((content, rest))
}

/// The number of a field, below the limit, and the octets after it; E8 for any other integer.
pub fn number_field(first: u8, limit: u32, octets: &[u8]) -> Result<(u32, &[u8]), MsgFault>
    ensures found { IfOk result (λ x. HasNumber octets.now first limit x.0 x.1.now) }
    ensures fault { IfErr result (λ e. IsPlainFault e ((n : ℕ) × (rest : List ℕ)
        × HasNumber octets.now first limit n rest)) }
{
    let (content, rest) = field(first, octets)?;
    let n = number(limit, content)?;
    Ok((n, rest))
}

/// The integer of a field, and the octets after it; E8 for one of more than eight octets.
pub fn integer_field(first: u8, octets: &[u8]) -> Result<(i64, &[u8]), MsgFault>
    ensures found { IfOk result (λ x. HasInteger octets.now first x.0 x.1.now) }
    ensures fault { IfErr result (λ e. IsPlainFault e ((z : ℤ) × (rest : List ℕ)
        × HasInteger octets.now first z rest)) }
{
    let (content, rest) = field(first, octets)?;
    let z = small_integer(content)?;
    Ok((z, rest))
}

/// The flag of a field, and the octets after it.
pub fn flag_field(first: u8, octets: &[u8]) -> Result<(bool, &[u8]), MsgFault>
    ensures found { IfOk result (λ x. HasFlag octets.now first x.0 x.1.now) }
    ensures fault { IfErr result (λ e. IsPlainFault e ((b : Bool) × (rest : List ℕ)
        × HasFlag octets.now first b rest)) }
{
    let (content, rest) = field(first, octets)?;
    let flag = flag(content)?;
    Ok((flag, rest))
}
