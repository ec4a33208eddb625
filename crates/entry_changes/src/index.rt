// Which values of an attribute are held, found by what they are compared by.

ghost use Rattle.std.specs.Prelude.{◌≡◌, ℕ, List, Some, None, cond, false, map, is_some, IfOk, OnOk, OnErr};
ghost use Rattle.std.specs.List.{list_any, list_all};
ghost use Rattle.std.specs.Str.{bytes_eq};
ghost use Rattle.entry_changes.specs.Opening.{since, octets_by as compared_by, marks_in};

use crate::since::{Since, are_all_held, is_some_held, marks, put_all, take_all};
use dir_entry::Attribute;
use std::alloc::{AllocError, Global};
use std::collections::BTreeMap;

/// Which values of an attribute are held.
pub struct Index {
    /// Whether values are compared by their keys, else by their octets.
    pub by_keys: bool,
    /// Since which place values of some octets are held.
    pub held: Since,
}

// Not derived: see "What the gate takes" in docs/ARCHITECTURE.md.
impl Drop for Index {
    fn drop(self) {
        let Index {
            by_keys: _,
            held: _,
        } = self;
    }
}

/// An attribute with every value that was ever there, and an index of those that are held.
#[derive(Drop)]
pub struct Indexed {
    pub attribute: Attribute,
    pub index: Index,
}

/// An index of an attribute that holds all its values.
pub fn index_of(alloc: Global, by_keys: bool, attribute: &Attribute) -> Result<Index, AllocError>
    ensures by_keys { IfOk result (λ i. i.by_keys ≡ by_keys) }
    ensures held { IfOk result (λ i. (q : List ℕ) → since i.held.entries q ≡
        cond (list_any (bytes_eq q) (compared_by by_keys attribute.now)) (Some 0) None) }
{
    let octets = attribute.octets(alloc, by_keys)?;
    let mut held = BTreeMap::new(alloc);
    put_all(alloc, &mut held, octets.as_slice(), 0)?;
    Ok(Index { by_keys, held })
}

/// Of each value of the attribute whether it is held.
pub fn marks_of(
    alloc: Global,
    index: &Index,
    attribute: &Attribute,
) -> Result<Vec<bool>, AllocError>
    ensures { IfOk result (λ v. v.items ≡ marks_in index.now.by_keys (since index.now.held.entries) attribute.now) }
{
    let octets = attribute.octets(alloc, index.by_keys)?;
    marks(alloc, &index.held, octets.as_slice())
}

/// Whether some of the given values are held.
pub fn holds_some_of(alloc: Global, index: &Index, given: &Attribute) -> Result<bool, AllocError>
    ensures { IfOk result (λ b. b ≡ list_any (λ x. is_some (since index.now.held.entries x))
        (compared_by index.now.by_keys given.now)) }
{
    let octets = given.octets(alloc, index.by_keys)?;
    Ok(is_some_held(&index.held, octets.as_slice()))
}

/// Whether all of the given values are held.
pub fn holds_all_of(alloc: Global, index: &Index, given: &Attribute) -> Result<bool, AllocError>
    ensures { IfOk result (λ b. b ≡ list_all (λ x. is_some (since index.now.held.entries x))
        (compared_by index.now.by_keys given.now)) }
{
    let octets = given.octets(alloc, index.by_keys)?;
    Ok(are_all_held(&index.held, octets.as_slice()))
}

/// The given values are held since this place. Whatever comes, what is held of others stays.
pub fn hold(
    alloc: Global,
    index: &mut Index,
    given: &Attribute,
    place: usize,
) -> Result<(), AllocError>
    ensures by_keys { index.new.by_keys ≡ index.old.by_keys }
    ensures held { OnOk result ((q : List ℕ) → since index.new.held.entries q ≡
        cond (list_any (bytes_eq q) (compared_by index.old.by_keys given.now)) (Some place)
        (since index.old.held.entries q)) }
    ensures others { (q : List ℕ) → list_any (bytes_eq q) (compared_by index.old.by_keys given.now) ≡ false →
        since index.new.held.entries q ≡ since index.old.held.entries q }
{
    let octets = given.octets(alloc, index.by_keys)?;
    put_all(alloc, &mut index.held, octets.as_slice(), place)
}

/// The given values are held no more. An `Err` leaves the index as it was.
pub fn let_go(alloc: Global, index: &mut Index, given: &Attribute) -> Result<(), AllocError>
    ensures by_keys { OnOk result (index.new.by_keys ≡ index.old.by_keys) }
    ensures held { OnOk result ((q : List ℕ) → since index.new.held.entries q ≡
        cond (list_any (bytes_eq q) (compared_by index.old.by_keys given.now)) None (since index.old.held.entries q)) }
    ensures err { OnErr result (index.new ≡ index.old) }
{
    let octets = given.octets(alloc, index.by_keys)?;
    take_all(&mut index.held, octets.as_slice());
    Ok(())
}
