// Which values of an attribute are given ones, by a look-up of each: what a change of few values asks.

ghost use Rattle.std.specs.Prelude.{◌≡◌, map, not, IfOk};
ghost use Rattle.std.specs.List.{list_any, list_all};
ghost use Rattle.std.specs.Str.{bytes_eq};
ghost use Rattle.dir_entry.specs.Picked.{picked};
ghost use Rattle.entry_changes.specs.Opening.{octets_by as compared_by};

use dir_entry::Attribute;
use std::alloc::{AllocError, Global};

/// Whether values of some of these octets are the attribute's.
fn is_some_among(by_keys: bool, attribute: &Attribute, list: &[&[u8]]) -> bool
    ensures { result ≡ list_any (λ octets. list_any (bytes_eq octets.now) (compared_by by_keys attribute.now))
        list.now }
{
    for octets in list {
        if attribute.has(by_keys, octets) {
            return true;
        }
    }
    false
}

/// Whether values of all these octets are the attribute's.
fn are_all_among(by_keys: bool, attribute: &Attribute, list: &[&[u8]]) -> bool
    ensures { result ≡ list_all (λ octets. list_any (bytes_eq octets.now) (compared_by by_keys attribute.now))
        list.now }
{
    for octets in list {
        if !attribute.has(by_keys, octets) {
            return false;
        }
    }
    true
}

/// Whether some of the given values are the attribute's.
pub fn has_some_of(
    alloc: Global,
    by_keys: bool,
    attribute: &Attribute,
    given: &Attribute,
) -> Result<bool, AllocError>
    ensures { IfOk result (λ b. b ≡ list_any (λ x. list_any (bytes_eq x) (compared_by by_keys attribute.now))
        (compared_by by_keys given.now)) }
{
    let octets = given.octets(alloc, by_keys)?;
    Ok(is_some_among(by_keys, attribute, octets.as_slice()))
}

/// Whether all of the given values are the attribute's.
pub fn has_all_of(
    alloc: Global,
    by_keys: bool,
    attribute: &Attribute,
    given: &Attribute,
) -> Result<bool, AllocError>
    ensures { IfOk result (λ b. b ≡ list_all (λ x. list_any (bytes_eq x) (compared_by by_keys attribute.now))
        (compared_by by_keys given.now)) }
{
    let octets = given.octets(alloc, by_keys)?;
    Ok(are_all_among(by_keys, attribute, octets.as_slice()))
}

/// The attribute without the given values.
pub fn without(
    alloc: Global,
    by_keys: bool,
    attribute: Attribute,
    given: &Attribute,
) -> Result<Attribute, AllocError>
    ensures kind { IfOk result (λ a. a.kind ≡ attribute.kind) }
    ensures values { IfOk result (λ a. a.values
        ≡ picked (map (λ x. not (list_any (bytes_eq x) (compared_by by_keys given.now)))
        (compared_by by_keys attribute)) attribute.values) }
    ensures keys { IfOk result (λ a. a.keys
        ≡ picked (map (λ x. not (list_any (bytes_eq x) (compared_by by_keys given.now)))
        (compared_by by_keys attribute)) attribute.keys) }
{
    let octets = given.octets(alloc, by_keys)?;
    let left = attribute.without(alloc, by_keys, octets.as_slice())?;
    Ok(left)
}
