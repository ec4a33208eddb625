//! Reads the parts of a substrings item.

ghost use Rattle.std.specs.Prelude.{ℕ, List, IfOk, IfErr, map};
ghost use Rattle.std.specs.Option.{option_map};
ghost use Rattle.ldap_ber.specs.Faults.{IsPlainFault};
ghost use Rattle.ldap_filter.specs.Item.{SubstringsValue};
ghost use Rattle.ldap_filter.specs.ItemGrammar.{AreAnyParts, AreParts};

use ldap_ber::{MsgFault, has_first, octets_field, optional_octets};
use std::alloc::Global;

/// The parts `any` at the front, and the octets after them.
fn any_parts(alloc: Global, octets: &[u8]) -> Result<(Vec<Vec<u8>>, &[u8]), MsgFault>
    ensures found { IfOk result (λ x. AreAnyParts (map (λ v. v.items) x.0.items) octets.now x.1.now) }
    ensures fault { IfErr result (λ e. IsPlainFault e ((vs : List (List ℕ)) × (rest : List ℕ)
        × AreAnyParts vs octets.now rest)) }
{
    let mut parts = Vec::new(alloc);
    let mut rest = octets;
    while has_first(0x81, rest) {
        let (part, after) = octets_field(alloc, 0x81, rest)?;
        parts.push(part)?;
        rest = after;
    }
    Ok((parts, rest))
}

/// The parts of a substrings item, in their order.
#[derive(Drop)]
pub struct Parts {
    pub initial: Option<Vec<u8>>,
    pub any: Vec<Vec<u8>>,
    pub last: Option<Vec<u8>>,
}

/// The parts whose octets these are, and nothing after them (RFC 4511 4.5.1.7.2).
pub fn parts_of(alloc: Global, octets: &[u8]) -> Result<Parts, MsgFault>
    ensures found { IfOk result (λ p. (d : List ℕ) → AreParts (record {
      description = d;
      initial = option_map (λ v. v.items) p.initial;
      any = map (λ v. v.items) p.any.items;
      last = option_map (λ v. v.items) p.last;
    }) octets.now) }
    ensures fault { IfErr result (λ e. IsPlainFault e ((s : SubstringsValue)
        × AreParts s octets.now)) }
{
    if octets.is_empty() {
        return Err(MsgFault::NotAMessage);
    }
    let (initial, rest) = optional_octets(alloc, 0x80, octets)?;
    let (any, rest) = any_parts(alloc, rest)?;
    let (last, rest) = optional_octets(alloc, 0x82, rest)?;
    if !rest.is_empty() {
        return Err(MsgFault::NotAMessage);
    }
    Ok(Parts { initial, any, last })
}
