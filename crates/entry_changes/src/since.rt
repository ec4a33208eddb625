// Keeps for each value the place since which it is held.

ghost use Rattle.std.specs.Prelude.{◌≡◌, ℕ, List, Some, None, cond, false, map, is_some, IfOk, OnOk, OnErr};
ghost use Rattle.std.specs.List.{list_any, list_all};
ghost use Rattle.std.specs.Str.{bytes_eq};
ghost use Rattle.entry_changes.specs.Opening.{since, is_since, marks_from};

use std::alloc::{AllocError, Global};
use std::collections::BTreeMap;

/// By octets, the place since which values of them are held: one in a place before it was deleted.
pub type Since = BTreeMap<Vec<u8>, usize>;

/// Since which place values of these octets are held; none, where no value is.
fn place_since(held: &Since, octets: &[u8]) -> Option<usize>
    ensures { result ≡ since held.now.entries octets.now }
{
    match held.get(octets) {
        Some(place) => Some(*place),
        None => None,
    }
}

/// Whether a value of these octets is held.
fn is_held(held: &Since, octets: &[u8]) -> bool
    ensures { result ≡ is_some (since held.now.entries octets.now) }
{
    place_since(held, octets).is_some()
}

/// Whether the value of these octets in this place is held.
fn is_held_in(held: &Since, octets: &[u8], place: usize) -> bool
    ensures { result ≡ is_since (since held.now.entries octets.now) place }
{
    match place_since(held, octets) {
        Some(first) => first <= place,
        None => false,
    }
}

/// Of each value, by its octets, whether it is held.
pub fn marks(alloc: Global, held: &Since, list: &[&[u8]]) -> Result<Vec<bool>, AllocError>
    ensures { IfOk result (λ v. v.items ≡ marks_from (since held.now.entries) 0 (map (λ octets. octets.now) list.now)) }
{
    let mut marks = Vec::with_capacity(alloc, list.len())?;
    let mut place = 0;
    for octets in list {
        marks.push(is_held_in(held, octets, place))?;
        place += 1;
    }
    Ok(marks)
}

/// Whether values of some of these octets are held.
pub fn is_some_held(held: &Since, list: &[&[u8]]) -> bool
    ensures { result ≡ list_any (λ octets. is_some (since held.now.entries octets.now)) list.now }
{
    for octets in list {
        if is_held(held, octets) {
            return true;
        }
    }
    false
}

/// Whether values of all these octets are held.
pub fn are_all_held(held: &Since, list: &[&[u8]]) -> bool
    ensures { result ≡ list_all (λ octets. is_some (since held.now.entries octets.now)) list.now }
{
    for octets in list {
        if !is_held(held, octets) {
            return false;
        }
    }
    true
}

/// A copy of octets.
fn copied(alloc: Global, octets: &[u8]) -> Result<Vec<u8>, AllocError>
    ensures { IfOk result (λ v. v.items ≡ octets.now) }
{
    octets.to_vec(alloc)
}

/// Values of these octets are held since this place. An `Err` leaves what was held.
fn put(held: &mut Since, octets: Vec<u8>, place: usize) -> Result<(), AllocError>
    ensures ok { OnOk result ((q : List ℕ) → since held.new.entries q ≡ cond (bytes_eq q octets.items) (Some place)
        (since held.old.entries q)) }
    ensures err { OnErr result (held.new.entries ≡ held.old.entries) }
{
    held.insert(octets, place)?;
    Ok(())
}

/// Values of each of these octets are held since this place. Whatever comes, what is held of others stays.
pub fn put_all(
    alloc: Global,
    held: &mut Since,
    list: &[&[u8]],
    place: usize,
) -> Result<(), AllocError>
    ensures ok { OnOk result ((q : List ℕ) → since held.new.entries q ≡
        cond (list_any (λ octets. bytes_eq q octets.now) list.now) (Some place) (since held.old.entries q)) }
    ensures others { (q : List ℕ) → list_any (λ octets. bytes_eq q octets.now) list.now ≡ false →
        since held.new.entries q ≡ since held.old.entries q }
{
    for octets in list {
        put(held, copied(alloc, octets)?, place)?;
    }
    Ok(())
}

/// No value of these octets is held any more.
fn take(held: &mut Since, octets: &[u8])
    ensures { (q : List ℕ) → since held.new.entries q ≡ cond (bytes_eq q octets.now) None (since held.old.entries q) }
{
    held.remove(octets);
}

/// No value of any of these octets is held any more.
pub fn take_all(held: &mut Since, list: &[&[u8]])
    ensures { (q : List ℕ) → since held.new.entries q ≡ cond (list_any (λ octets. bytes_eq q octets.now) list.now)
        None (since held.old.entries q) }
{
    for octets in list {
        take(held, octets);
    }
}
