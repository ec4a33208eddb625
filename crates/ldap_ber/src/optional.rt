//! Reads fields that may be left out.

ghost use Rattle.std.specs.Prelude.{◌≡◌, ℕ, List, Bool, Option, IfOk, IfErr, string_bytes};
ghost use Rattle.std.specs.Option.{option_map};
ghost use Rattle.std.specs.Bool.{OnTrue, OnFalse};
ghost use Rattle.ldap_ber.specs.Fields.{BeginsOtherwise, HasTextOrNone, HasOctetsOrNone, HasFlagOrFalse};
ghost use Rattle.ldap_ber.specs.Faults.{IsPlainFault};

use crate::fields::{flag_field, octets_field, text_field};
use crate::message_fault::MsgFault;
use std::alloc::Global;

/// Whether the octets begin with this one.
pub fn has_first(first: u8, octets: &[u8]) -> bool
    ensures yes { OnTrue result (BeginsOtherwise octets.now first → ⊥) }
    ensures no { OnFalse result (BeginsOtherwise octets.now first) }
{
    match octets {
        [] => false,
        [octet, ..] => *octet == first,
    }
}

/// The text of an optional field, and the octets after it.
pub fn optional_text(
    alloc: Global,
    first: u8,
    octets: &[u8],
) -> Result<(Option<String>, &[u8]), MsgFault>
    ensures found { IfOk result (λ x. HasTextOrNone octets.now first (option_map string_bytes x.0) x.1.now) }
    ensures fault { IfErr result (λ e. IsPlainFault e ((t : Option (List ℕ)) × (rest : List ℕ)
        × HasTextOrNone octets.now first t rest)) }
{
    if !has_first(first, octets) {
        return Ok((None, octets));
    }
    let (text, rest) = text_field(alloc, first, octets)?;
    Ok((Some(text), rest))
}

/// The content of an optional field, copied, and the octets after it.
pub fn optional_octets(
    alloc: Global,
    first: u8,
    octets: &[u8],
) -> Result<(Option<Vec<u8>>, &[u8]), MsgFault>
    ensures found { IfOk result (λ x. HasOctetsOrNone octets.now first (option_map
        (λ v. v.items) x.0) x.1.now) }
    ensures fault { IfErr result (λ e. IsPlainFault e ((v : Option (List ℕ)) × (rest : List ℕ)
        × HasOctetsOrNone octets.now first v rest)) }
{
    if !has_first(first, octets) {
        return Ok((None, octets));
    }
    let (content, rest) = octets_field(alloc, first, octets)?;
    Ok((Some(content), rest))
}

/// The flag of a field that is false where it is left out, and the octets after it.
pub fn flag_or_false(first: u8, octets: &[u8]) -> Result<(bool, &[u8]), MsgFault>
    ensures found { IfOk result (λ x. HasFlagOrFalse octets.now first x.0 x.1.now) }
    ensures fault { IfErr result (λ e. IsPlainFault e ((b : Bool) × (rest : List ℕ)
        × HasFlagOrFalse octets.now first b rest)) }
{
    if !has_first(first, octets) {
        return Ok((false, octets));
    }
    flag_field(first, octets)
}
