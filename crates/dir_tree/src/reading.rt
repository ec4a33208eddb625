// Names by number: goes up from an entry, superior by superior.

ghost use Rattle.std.specs.Prelude.{◌≡◌, ◌++◌, [], IfOk, IfSome, OnOk, Some, None, is_some, length, map, reverse, slice_get, option_copied, true, IsTrue, ◌↔◌};
ghost use Rattle.std.specs.Option.{option_map};
ghost use Rattle.std.specs.Map.{lookup};
ghost use Rattle.std.specs.BTreeMap.{is_at};
ghost use Rattle.std.specs.Ordering.{nat_cmp};
ghost use Rattle.dir_entry.specs.shared_map.Sets.{IsRising};
ghost use Rattle.dir_tree.specs.Directory.{AllBelow};
ghost use Rattle.dir_tree.specs.Kept.{shown};
ghost use Rattle.dir_tree.specs.Superiors.{name_up, place_at};
ghost use Rattle.dir_tree.specs.declared.place.Place.TheVariants.{Under};
ghost use Rattle.dir_tree.specs.private.Superiors.{AreOwn, below_at};

use crate::place::{Entries, Place};
use crate::roots::Roots;
use crate::shared::SharedEntry;
use dir_entry::{Name, NumberSet, Rdn};
use std::alloc::{AllocError, Global};

/// The place of a number.
fn place_of(entries: &Entries, number: u64) -> Option<&Place>
    ensures { option_copied result ≡ place_at entries.now number }
{
    match entries.get(&number) {
        Some(standing) => Some(&standing.place),
        None => None,
    }
}

/// A relative name, counted from a name's end.
fn rdn_from_end(rdns: &[Rdn], up: usize) -> Option<&Rdn>
    ensures { option_copied result ≡ slice_get (reverse rdns.now) up }
{
    rdns.iter().rev().nth(up)
}

/// Puts a name's relative names, the last first, at the end of a list.
fn push_back<'a>(into: &mut Vec<&'a Rdn>, rdns: &'a [Rdn]) -> Result<(), AllocError>
    ensures { OnOk result (map (λ r. r.now) into.new.items
        ≡ map (λ r. r.now) into.old.items ++ reverse rdns.now) }
{
    let mut rest = rdns;
    while let Some((last, front)) = rest.split_last() {
        into.push(last)?;
        rest = front;
    }
    Ok(())
}

impl Roots {
    /// The number that a number's entry stands right under, and its relative name there; none, where it is a root's.
    pub fn superior_of(&self, number: u64) -> Option<(u64, &Rdn)>
        ensures { IfSome result (λ p. place_at self.now.entries number ≡ Some (Under p.0 p.1.now)) }
    {
        match place_of(&self.entries, number) {
            Some(Place::Under(above, rdn)) => Some((*above, rdn.get())),
            Some(Place::Root(_)) | None => None,
        }
    }

    /// The relative name that is `up` steps above the last of a number's name, 0 its own. It takes
    /// a look-up for each step.
    pub fn rdn_above(&self, number: u64, up: usize) -> Option<&Rdn>
        ensures { option_copied result
            ≡ slice_get (reverse (name_up self.now.reach (place_at self.now.entries) number)) up }
    {
        let mut at = number;
        let mut left = up;
        for i in 0..self.reach.most() {
            match place_of(&self.entries, at) {
                None => return None,
                Some(Place::Root(name)) => return rdn_from_end(name.get().rdns(), left),
                Some(Place::Under(above, rdn)) => {
                    if left == 0 {
                        return Some(rdn.get());
                    }
                    left -= 1;
                    at = *above;
                }
            }
        }
        None
    }

    /// The relative names of a number's name, the last first.
    fn rdns_up(&self, alloc: Global, number: u64) -> Result<Vec<&Rdn>, AllocError>
        ensures { IfOk result (λ v. reverse (map (λ r. r.now) v.items)
            ≡ name_up self.now.reach (place_at self.now.entries) number) }
    {
        let mut rdns = Vec::new(alloc);
        let mut at = number;
        for i in 0..self.reach.most() {
            match place_of(&self.entries, at) {
                None => return Ok(rdns),
                Some(Place::Root(name)) => {
                    push_back(&mut rdns, name.get().rdns())?;
                    return Ok(rdns);
                }
                Some(Place::Under(above, rdn)) => {
                    rdns.push(rdn.get())?;
                    at = *above;
                }
            }
        }
        Ok(rdns)
    }

    /// The same, as callers see it.
    pub fn rdns_from_leaf(&self, alloc: Global, number: u64) -> Result<Vec<&Rdn>, AllocError>
        ensures { IfOk result (λ v. map (λ r. r.now) v.items
            ≡ reverse (name_up self.now.reach (place_at self.now.entries) number)) }
    {
        self.rdns_up(alloc, number)
    }

    /// How many relative names a number's name has. It takes a look-up for each step.
    pub fn count_of_rdns(&self, number: u64) -> usize
        ensures { result ≡ length (name_up self.now.reach (place_at self.now.entries) number) }
    {
        let mut at = number;
        let mut count = 0;
        for i in 0..self.reach.most() {
            match place_of(&self.entries, at) {
                None => return count,
                Some(Place::Root(name)) => return count + name.len(),
                Some(Place::Under(above, _)) => {
                    count += 1;
                    at = *above;
                }
            }
        }
        count
    }

    /// The relative names of a number's name, the root's first.
    pub fn rdns(&self, alloc: Global, number: u64) -> Result<Vec<&Rdn>, AllocError>
        ensures { IfOk result (λ v. map (λ r. r.now) v.items
            ≡ name_up self.now.reach (place_at self.now.entries) number) }
    {
        let mut rdns = self.rdns_up(alloc, number)?;
        rdns.reverse();
        Ok(rdns)
    }

    /// A number's name.
    pub fn name(&self, alloc: Global, number: u64) -> Result<Name, AllocError>
        ensures { IfOk result (λ n. n ≡ name_up self.now.reach (place_at self.now.entries) number) }
    {
        let rdns = self.rdns(alloc, number)?;
        copied(alloc, rdns.as_slice())
    }

    /// Whether a number is above all.
    pub fn is_above_all(&self, number: u64) -> bool
        ensures { IsTrue result ↔ AllBelow number (shown self.now) }
    {
        match self.entries.get(&number) {
            Some(_) => false,
            None => self.entries.run_after(&number).is_empty(),
        }
    }

    /// Whether a number has an entry.
    pub fn has_number(&self, number: u64) -> bool
        ensures { result ≡ is_some (place_at self.now.entries number) }
    {
        place_of(&self.entries, number).is_some()
    }

    /// The attributes of a number's entry.
    pub fn entry(&self, number: u64) -> Option<&SharedEntry>
        ensures { option_copied result
            ≡ option_map (λ s. s.entry) (lookup (is_at (nat_cmp number)) self.now.entries) }
    {
        match self.entries.get(&number) {
            Some(standing) => Some(&standing.entry),
            None => None,
        }
    }

    /// The numbers right under an entry.
    pub fn children(&self, number: u64) -> &NumberSet
        requires { self.now.none ≡ [] }
        ensures set { result.now ≡ (below_at self.now.levels number).children }
        ensures rises { IsRising result.now }
    {
        let children = match self.levels.get(&number) {
            Some(below) => &below.children,
            None => &self.none,
        };
        children.rises();
        children
    }

    /// The numbers at or below an entry; none, where the number has no entry.
    pub fn within(&self, number: u64) -> Option<&NumberSet>
        requires { AreOwn self.now.entries }
        ensures set { is_some (place_at self.now.entries number) ≡ true
            → option_map (λ s. s.now) result ≡ Some (below_at self.now.levels number).within }
        ensures rises { IfSome result (λ s. IsRising s.now) }
    {
        let within = match self.levels.get(&number) {
            Some(below) => &below.within,
            None => &self.entries.get(&number)?.own,
        };
        within.rises();
        Some(within)
    }
}

/// A name of its own.
fn copied(alloc: Global, rdns: &[&Rdn]) -> Result<Name, AllocError>
    ensures { IfOk result (λ n. n ≡ map (λ r. r.now) rdns.now) }
{
    let mut copy = Vec::with_capacity(alloc, rdns.len())?;
    for rdn in rdns {
        copy.push(rdn.copy(alloc)?)?;
    }
    Ok(Name::from_rdns(copy))
}
