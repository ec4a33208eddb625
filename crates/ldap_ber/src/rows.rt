//! Reads rows: fields of one kind up to the end.

ghost use Rattle.std.specs.Prelude.{ℕ, List, IfOk, IfErr, map, string_bytes};
ghost use Rattle.ldap_ber.specs.Fields.{HasText, HasPart};
ghost use Rattle.ldap_ber.specs.Rows.{AreElements, AreTexts, AreValues, HasRowOrNone};
ghost use Rattle.ldap_ber.specs.Faults.{IsPlainFault};

use crate::fields::{element, field, octets_field, text_field};
use crate::message_fault::MsgFault;
use crate::optional::has_first;
use std::alloc::Global;

/// Passes over whole elements up to the end; E8 where something else is there.
pub fn elements(content: &[u8]) -> Result<(), MsgFault>
    ensures found { IfOk result (λ _. AreElements content.now) }
    ensures fault { IfErr result (λ e. IsPlainFault e (AreElements content.now)) }
{
    let mut rest = content;
    while !rest.is_empty() {
        let (_, after) = element(rest)?;
        rest = after;
    }
    Ok(())
}

/// Texts of first octet 04, one after the other, up to the end.
pub fn texts(alloc: Global, content: &[u8]) -> Result<Vec<String>, MsgFault>
    ensures found { IfOk result (λ v. AreTexts (map string_bytes v.items) content.now) }
    ensures fault { IfErr result (λ e. IsPlainFault e ((ts : List (List ℕ))
        × AreTexts ts content.now)) }
{
    let mut texts = Vec::new(alloc);
    let mut rest = content;
    while !rest.is_empty() {
        let (text, after) = text_field(alloc, 0x04, rest)?;
        texts.push(text)?;
        rest = after;
    }
    Ok(texts)
}

/// Octet strings of first octet 04, one after the other, up to the end.
pub fn values(alloc: Global, content: &[u8]) -> Result<Vec<Vec<u8>>, MsgFault>
    ensures found { IfOk result (λ v. AreValues (map (λ x. x.items) v.items) content.now) }
    ensures fault { IfErr result (λ e. IsPlainFault e ((vs : List (List ℕ))
        × AreValues vs content.now)) }
{
    let mut values = Vec::new(alloc);
    let mut rest = content;
    while !rest.is_empty() {
        let (value, after) = octets_field(alloc, 0x04, rest)?;
        values.push(value)?;
        rest = after;
    }
    Ok(values)
}

/// The texts of a field, and the octets after it.
pub fn texts_field(
    alloc: Global,
    first: u8,
    octets: &[u8],
) -> Result<(Vec<String>, &[u8]), MsgFault>
    ensures found { IfOk result (λ x. HasPart (AreTexts
        (map string_bytes x.0.items)) octets.now first x.1.now) }
    ensures fault { IfErr result (λ e. IsPlainFault e ((ts : List (List ℕ)) × (rest : List ℕ)
        × HasPart (AreTexts ts) octets.now first rest)) }
{
    let (content, rest) = field(first, octets)?;
    let texts = texts(alloc, content)?;
    Ok((texts, rest))
}

/// The octet strings of a field, and the octets after it.
pub fn values_field(
    alloc: Global,
    first: u8,
    octets: &[u8],
) -> Result<(Vec<Vec<u8>>, &[u8]), MsgFault>
    ensures found { IfOk result (λ x. HasPart (AreValues (map
        (λ v. v.items) x.0.items)) octets.now first x.1.now) }
    ensures fault { IfErr result (λ e. IsPlainFault e ((vs : List (List ℕ)) × (rest : List ℕ)
        × HasPart (AreValues vs) octets.now first rest)) }
{
    let (content, rest) = field(first, octets)?;
    let values = values(alloc, content)?;
    Ok((values, rest))
}

/// The texts of an optional field, none where it is left out, and the octets after it.
pub fn texts_or_none(
    alloc: Global,
    first: u8,
    octets: &[u8],
) -> Result<(Vec<String>, &[u8]), MsgFault>
    ensures found { IfOk result (λ x. HasRowOrNone
        (λ t octets rest. HasText octets 4 t rest) octets.now first
        (map string_bytes x.0.items) x.1.now) }
    ensures fault { IfErr result (λ e. IsPlainFault e ((ts : List (List ℕ)) × (rest : List ℕ)
        × HasRowOrNone (λ t octets rest. HasText octets 4 t rest) octets.now first ts rest)) }
{
    if !has_first(first, octets) {
        return Ok((Vec::new(alloc), octets));
    }
    texts_field(alloc, first, octets)
}
