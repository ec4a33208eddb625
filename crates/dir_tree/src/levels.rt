// What stands below entries, by number. Takes numbers and relative names; hands out numbers and sets of numbers, and
// what is kept once a number has come or gone.

ghost use Rattle.std.specs.Prelude.{◌≡◌, ◌&&◌, ◌||◌, ◌∷◌, ℕ, List, [], IfOk, IfSome, Some, None, cond, false, nat_eq, not};
ghost use Rattle.std.specs.Option.{option_map, option_map_or};
ghost use Rattle.dir_entry.specs.ldap_dn.Names.{TypeAndKey, are_same_keys};
ghost use Rattle.dir_entry.specs.shared_map.Sets.{has_number};
ghost use Rattle.dir_tree.specs.private.Superiors.{alone, below_at, step_at, number_among};
ghost use Rattle.dir_tree.specs.private.Changes.{kept_or, child_put, within_put};

use crate::digested_names::{DigestedRdn, SoughtRdn};
use crate::number_sets::{joined, parted};
use crate::place::{Below, Levels};
use crate::shared_names::SharedRdn;
use dir_entry::{NumberSet, Rdn, Shared, SharedMap, ValueChange};
use std::alloc::{AllocError, Global};
use std::mem::replace;

/// The number of a relative name.
#[tactic(auto, using(crate::proofs::LevelFacts::among_find))]
fn number_of(names: &SharedMap<DigestedRdn, u64>, rdn: &Rdn) -> Option<u64>
    ensures { result ≡ number_among rdn.now.keys names.now }
{
    match names.find(&SoughtRdn::new(rdn)) {
        Some(number) => Some(*number),
        None => None,
    }
}

/// The number of the entry right under a number by a relative name: two look-ups.
pub fn number_under(levels: &Levels, above: u64, rdn: &Rdn) -> Option<u64>
    ensures { result ≡ step_at levels.now above rdn.now.keys }
{
    match levels.get(&above) {
        Some(below) => number_of(&below.names, rdn),
        None => None,
    }
}

/// What is kept below a number, as a second owner has it.
fn shared_at(levels: &Levels, number: u64) -> Result<Below, AllocError>
    ensures { IfOk result (λ b. b ≡ below_at levels.now number) }
{
    match levels.get(&number) {
        Some(below) => below.share(),
        None => Ok(Below::alone(number)),
    }
}

/// Something else below a number.
fn with_below(
    alloc: Global,
    levels: &Levels,
    number: u64,
    below: Below,
) -> Result<Levels, AllocError>
    ensures { IfOk result (λ m. (a : ℕ) → below_at m a
        ≡ cond (nat_eq a number) below (below_at levels.now a)) }
{
    levels.with(alloc, number, below)
}

/// Nothing below a number.
pub fn without_below(alloc: Global, levels: &Levels, number: u64) -> Result<Levels, AllocError>
    ensures { IfOk result (λ m. (a : ℕ) → below_at m a
        ≡ cond (nat_eq a number) (alone number) (below_at levels.now a)) }
{
    levels.rises();
    levels.without(alloc, &number)
}

/// An entry that comes right under a number.
#[derive(Drop)]
struct Child {
    above: u64,
    rdn: SharedRdn,
    number: u64,
}

impl ValueChange<Below> for Child {
    ghost becomes = { λ c o. child_put (kept_or o c.above) c.rdn c.number };

    fn first(self, alloc: Global) -> Result<Below, AllocError> {
        Below::alone(self.above).with_child(alloc, self.rdn, self.number)
    }

    fn alter(self, alloc: Global, value: &mut Below) -> Result<(), AllocError> {
        let below = replace(value, Below::alone(self.above));
        *value = below.with_child(alloc, self.rdn, self.number)?;
        Ok(())
    }
}

/// A number that comes to stand at or below another one.
#[derive(Drop)]
struct Joining {
    at: u64,
    number: u64,
}

impl ValueChange<Below> for Joining {
    ghost becomes = { λ j o. within_put (kept_or o j.at) j.number };

    fn first(self, alloc: Global) -> Result<Below, AllocError> {
        Below::alone(self.at).with_number(alloc, self.number)
    }

    fn alter(self, alloc: Global, value: &mut Below) -> Result<(), AllocError> {
        let below = replace(value, Below::alone(self.at));
        *value = below.with_number(alloc, self.number)?;
        Ok(())
    }
}

/// An entry more right under a number; the sets of what stands at or below numbers stay.
pub fn with_child(
    alloc: Global,
    levels: Levels,
    above: u64,
    rdn: SharedRdn,
    number: u64,
) -> Result<Levels, AllocError>
    ensures steps { IfOk result (λ m. (a : ℕ) (x : List TypeAndKey) → step_at m a x
        ≡ cond (nat_eq a above && are_same_keys x rdn.keys) (Some number) (step_at levels a x)) }
    ensures children { IfOk result (λ m. (a j : ℕ) → has_number j (below_at m a).children
        ≡ ((nat_eq a above && nat_eq j number) || has_number j (below_at levels a).children)) }
    ensures within { IfOk result (λ m. (a : ℕ) → (below_at m a).within ≡ (below_at levels a).within) }
{
    let now = levels.alter(alloc, &above, Child { above, rdn, number })?;
    Ok(now)
}

/// A number more at or below a number.
pub fn with_number(
    alloc: Global,
    levels: Levels,
    at: u64,
    number: u64,
) -> Result<Levels, AllocError>
    ensures names { IfOk result (λ m. (a : ℕ) → (below_at m a).names ≡ (below_at levels a).names) }
    ensures children { IfOk result (λ m. (a : ℕ) → (below_at m a).children ≡ (below_at levels a).children) }
    ensures within { IfOk result (λ m. (a j : ℕ) → has_number j (below_at m a).within
        ≡ ((nat_eq a at && has_number j (number ∷ [])) || has_number j (below_at levels a).within)) }
{
    let now = levels.alter(alloc, &at, Joining { at, number })?;
    Ok(now)
}

/// An entry fewer right under a number; the sets of what stands at or below numbers stay.
pub fn without_child(
    alloc: Global,
    levels: &Levels,
    above: u64,
    rdn: &Rdn,
    number: u64,
) -> Result<Levels, AllocError>
    ensures steps { IfOk result (λ m. (a : ℕ) (x : List TypeAndKey) → step_at m a x
        ≡ cond (nat_eq a above && are_same_keys x rdn.now.keys) None (step_at levels.now a x)) }
    ensures children { IfOk result (λ m. (a j : ℕ) → has_number j (below_at m a).children
        ≡ (not (nat_eq a above && nat_eq j number)
        && has_number j (below_at levels.now a).children)) }
    ensures within { IfOk result (λ m. (a : ℕ) → (below_at m a).within
        ≡ (below_at levels.now a).within) }
{
    let mut below = shared_at(levels, above)?;
    below.names.rises();
    below.names = below.names.without(alloc, &SoughtRdn::new(rdn))?;
    below.children.rises();
    below.children = below.children.without(alloc, number)?;
    with_below(alloc, levels, above, below)
}

/// Numbers more at or below a number.
pub fn with_within(
    alloc: Global,
    levels: &Levels,
    at: u64,
    numbers: &NumberSet,
) -> Result<Levels, AllocError>
    ensures names { IfOk result (λ m. (a : ℕ) → (below_at m a).names
        ≡ (below_at levels.now a).names) }
    ensures children { IfOk result (λ m. (a : ℕ) → (below_at m a).children
        ≡ (below_at levels.now a).children) }
    ensures within { IfOk result (λ m. (a j : ℕ) → has_number j (below_at m a).within
        ≡ ((nat_eq a at && has_number j numbers.now) || has_number j (below_at levels.now a).within)) }
{
    let mut below = shared_at(levels, at)?;
    below.within = joined(alloc, &below.within, numbers)?;
    with_below(alloc, levels, at, below)
}

/// Numbers fewer at or below a number.
pub fn without_within(
    alloc: Global,
    levels: &Levels,
    at: u64,
    numbers: &NumberSet,
) -> Result<Levels, AllocError>
    ensures names { IfOk result (λ m. (a : ℕ) → (below_at m a).names
        ≡ (below_at levels.now a).names) }
    ensures children { IfOk result (λ m. (a : ℕ) → (below_at m a).children
        ≡ (below_at levels.now a).children) }
    ensures within { IfOk result (λ m. (a j : ℕ) → has_number j (below_at m a).within
        ≡ (not (nat_eq a at && has_number j numbers.now)
        && has_number j (below_at levels.now a).within)) }
{
    let mut below = shared_at(levels, at)?;
    below.within = parted(alloc, &below.within, numbers)?;
    with_below(alloc, levels, at, below)
}

/// Whether a number stands at or below another one.
pub fn is_within(levels: &Levels, above: u64, number: Option<u64>) -> bool
    ensures { result
        ≡ option_map_or (λ k. has_number k (below_at levels.now above).within) number false }
{
    match number {
        Some(number) => match levels.get(&above) {
            Some(below) => below.within.contains(number),
            None => number == above,
        },
        None => false,
    }
}
