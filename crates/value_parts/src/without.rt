// Values taken out of parts.

ghost use Rattle.std.specs.Prelude.{◌≡◌, IfOk, IsTrue, map, false, true};
ghost use Rattle.std.specs.List.{list_any, list_all};
ghost use Rattle.std.specs.Str.{bytes_eq};
ghost use Rattle.value_parts.specs.Parts.{whole, before};
ghost use Rattle.value_parts.specs.KeptParts.{octets_in, as_part, are_beside, part_without as part_without_these, HaveTexts};
ghost use Rattle.value_parts.specs.private.Fitting.{fits as is_fitting};

use crate::digest::SoughtOctets;
use crate::kept_part::KeptPart;
use crate::lists::Lists;
use ldap_match::Key;
use shared_map::Octets;
use std::alloc::{AllocError, Global};

/// Octets that are looked for, with their digests.
pub fn sought<'a>(alloc: Global, given: &[&'a [u8]]) -> Result<Vec<SoughtOctets<'a>>, AllocError>
    ensures { IfOk result (λ v. v.items ≡ map (λ octets. octets.now) given.now) }
{
    let mut list = Vec::with_capacity(alloc, given.len())?;
    for octets in given {
        list.push(SoughtOctets::new(octets))?;
    }
    Ok(list)
}

/// Whether octets are among others.
fn is_one_of(octets: &[u8], others: &[SoughtOctets]) -> bool
    ensures { result ≡ list_any (bytes_eq octets.now) others.now }
{
    for other in others {
        if octets == other.as_slice() {
            return true;
        }
    }
    false
}

/// Of keys, whether they are none of the given octets.
fn marks_of_keys(
    alloc: Global,
    keys: &[Key],
    given: &[SoughtOctets],
) -> Result<Vec<bool>, AllocError>
    ensures { IfOk result (λ v. v.items ≡ are_beside given.now keys.now) }
{
    let mut marks = Vec::with_capacity(alloc, keys.len())?;
    for key in keys {
        marks.push(!is_one_of(key.as_octets(), given))?;
    }
    Ok(marks)
}

/// Of values, whether they are none of the given octets.
fn marks_of_values(
    alloc: Global,
    values: &[Octets],
    given: &[SoughtOctets],
) -> Result<Vec<bool>, AllocError>
    ensures { IfOk result (λ v. v.items ≡ are_beside given.now values.now) }
{
    let mut marks = Vec::with_capacity(alloc, values.len())?;
    for value in values {
        marks.push(!is_one_of(value.as_slice(), given))?;
    }
    Ok(marks)
}

/// Of values, whether they are compared by none of the given octets.
fn marks_of(
    alloc: Global,
    by_keys: bool,
    lists: &Lists,
    given: &[SoughtOctets],
) -> Result<Vec<bool>, AllocError>
    ensures { IfOk result (λ v. v.items ≡ are_beside given.now (octets_in by_keys (as_part lists.now))) }
{
    if by_keys {
        marks_of_keys(alloc, &lists.keys, given)
    } else {
        marks_of_values(alloc, &lists.values, given)
    }
}

/// Lists without the values that are compared by one of the given octets.
pub fn lists_without(
    alloc: Global,
    by_keys: bool,
    lists: Lists,
    given: &[SoughtOctets],
) -> Result<Lists, AllocError>
    ensures without { IfOk result (λ l. as_part l ≡ part_without_these given.now by_keys (as_part lists)) }
    ensures texts { HaveTexts (as_part lists) → IfOk result (λ l. HaveTexts (as_part l)) }
{
    let marks = marks_of(alloc, by_keys, &lists, given)?;
    let left = lists.picked(alloc, &marks)?;
    Ok(left)
}

/// Whether a value of the part is compared by one of these octets.
fn has_some(part: &KeptPart, by_keys: bool, given: &[SoughtOctets]) -> bool
    ensures { result ≡ list_any (λ q. list_any (bytes_eq q) (octets_in by_keys part.now)) given.now }
{
    for sought in given {
        if part.has(by_keys, sought) {
            return true;
        }
    }
    false
}

/// Whether the part has the texts of each value, and the key of each or no key.
fn fits(part: &KeptPart, keyed: bool) -> bool
    ensures { result ≡ is_fitting keyed part.now }
{
    let part = part.as_part();
    let keys = if keyed { part.values.len() } else { 0 };
    part.forms.len() == part.values.len() && part.keys.len() == keys
}

/// Whether that holds of all parts.
pub fn all_fit(parts: &[KeptPart], keyed: bool) -> bool
    ensures { result ≡ list_all (is_fitting keyed) parts.now }
{
    for part in parts {
        if !fits(part, keyed) {
            return false;
        }
    }
    true
}

/// Parts, and behind them lists, unless these are empty.
fn pushed(alloc: Global, parts: Vec<KeptPart>, lists: Lists) -> Result<Vec<KeptPart>, AllocError>
    requires { HaveTexts (as_part lists) }
    ensures { IfOk result (λ v. whole v.items ≡ before (whole parts.items) (as_part lists)) }
{
    if lists.values.is_empty() && lists.keys.is_empty() && lists.forms.is_empty() {
        return Ok(parts);
    }
    let mut parts = parts;
    parts.push(KeptPart::new(alloc, lists)?)?;
    Ok(parts)
}

/// Parts, and behind them another one without the values that are compared by one of the given octets. It stays as it
/// is where there are none.
fn pushed_without(
    alloc: Global,
    by_keys: bool,
    keyed: bool,
    parts: Vec<KeptPart>,
    part: KeptPart,
    given: &[SoughtOctets],
) -> Result<Vec<KeptPart>, AllocError>
    requires keyed { by_keys ≡ true → keyed ≡ true }
    requires fits { is_fitting keyed part ≡ true }
    ensures { IfOk result (λ v. whole v.items ≡ before (whole parts.items)
        (part_without_these given.now by_keys part)) }
{
    if has_some(&part, by_keys, given) {
        let lists = part.into_lists(alloc)?;
        let left = lists_without(alloc, by_keys, lists, given)?;
        return pushed(alloc, parts, left);
    }
    let mut parts = parts;
    parts.push(part)?;
    Ok(parts)
}

/// Parts, each without the values that are compared by one of the given octets.
fn each_without(
    alloc: Global,
    by_keys: bool,
    keyed: bool,
    parts: Vec<KeptPart>,
    given: &[SoughtOctets],
) -> Result<Vec<KeptPart>, AllocError>
    requires keyed { by_keys ≡ true → keyed ≡ true }
    requires fits { list_all (is_fitting keyed) parts.items ≡ true }
    ensures { IfOk result (λ v. whole v.items ≡ whole (map (part_without_these given.now by_keys) parts.items)) }
{
    let mut left = Vec::with_capacity(alloc, parts.len())?;
    for part in parts {
        left = pushed_without(alloc, by_keys, keyed, left, part, given)?;
    }
    Ok(left)
}

/// Parts without the values that are compared by one of the given octets.
#[tactic(auto, using(crate::proofs::Taken::all_without))]
pub fn parts_without(
    alloc: Global,
    by_keys: bool,
    keyed: bool,
    parts: Vec<KeptPart>,
    given: &[SoughtOctets],
) -> Result<Vec<KeptPart>, AllocError>
    requires keyed { by_keys ≡ true → keyed ≡ true }
    requires fits { list_all (is_fitting keyed) parts.items ≡ true }
    ensures { IfOk result (λ v. whole v.items ≡ part_without_these given.now by_keys (whole parts.items)) }
{
    each_without(alloc, by_keys, keyed, parts, given)
}
