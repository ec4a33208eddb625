// The parts of an attribute's values, as they are kept.

ghost use Rattle.std.specs.Prelude.{◌≡◌, length, IfOk, IfSome};
ghost use Rattle.std.specs.List.{list_any};
ghost use Rattle.std.specs.Str.{bytes_eq};
ghost use Rattle.value_parts.specs.Parts.{whole, before};
ghost use Rattle.value_parts.specs.KeptParts.{octets_in, as_part, HaveTexts};

use crate::digest::SoughtOctets;
use crate::kept_part::KeptPart;
use crate::lists::Lists;
use std::alloc::{AllocError, Global};
use std::marker::Model;

/// A part has at most so many values.
pub const PART: usize = 64;

/// Parts of an attribute's values, and how many values there are. Contracts see the parts.
pub struct PartList {
    parts: Vec<KeptPart>,
    count: usize,
}

// Not derived: see "What the gate takes" in docs/ARCHITECTURE.md.
impl Drop for PartList {
    fn drop(self) {
        let PartList { parts: _, count: _ } = self;
    }
}

impl Model for PartList {
    ghost use Rattle.std.specs.Prelude.{◌≡◌, List, length};
    ghost use Rattle.value_parts.specs.Parts.{PartModel, whole};

    ghost Value = { List PartModel };

    ghost view = { λ l. l.parts.items };

    ghost invariant = { λ l. l.count ≡ length (whole l.parts.items).values };
}

#[tactic(auto, using(crate::proofs::Wholes::count_more))]
/// How many values there are; none, where no number of this size tells.
fn count_of(parts: &[KeptPart]) -> Option<usize>
    ensures { IfSome result (λ n. n ≡ length (whole parts.now).values) }
{
    let mut count: usize = 0;
    for part in parts {
        match count.checked_add(part.len()) {
            Some(more) => count = more,
            None => return None,
        }
    }
    Some(count)
}

/// Second owners of parts.
fn share_parts(alloc: Global, parts: &[KeptPart]) -> Result<Vec<KeptPart>, AllocError>
    ensures { IfOk result (λ v. v.items ≡ parts.now) }
{
    let mut copy = Vec::with_capacity(alloc, parts.len())?;
    for part in parts {
        copy.push(part.share()?)?;
    }
    Ok(copy)
}

/// Lists cut into parts, each but the last of as many values as a part has at most.
fn cut(alloc: Global, lists: Lists) -> Result<Vec<KeptPart>, AllocError>
    requires { HaveTexts (as_part lists) }
    ensures { IfOk result (λ v. whole v.items ≡ as_part lists) }
{
    let mut rest = lists;
    let mut backward = Vec::new(alloc);
    while rest.values.len() > PART {
        let place = (rest.values.len() - 1) / PART * PART;
        let (first, last) = rest.parted(place)?;
        backward.push(KeptPart::new(alloc, last)?)?;
        rest = first;
    }
    backward.push(KeptPart::new(alloc, rest)?)?;
    backward.reverse();
    Ok(backward)
}

impl PartList {
    /// These parts.
    pub fn of(parts: Vec<KeptPart>) -> Result<PartList, AllocError>
        ensures { IfOk result (λ l. l ≡ parts.items) }
    {
        match count_of(&parts) {
            Some(count) => Ok(PartList { parts, count }),
            None => Err(AllocError),
        }
    }

    /// Lists in parts.
    pub fn of_lists(alloc: Global, lists: Lists) -> Result<PartList, AllocError>
        requires { HaveTexts (as_part lists) }
        ensures { IfOk result (λ l. whole l ≡ as_part lists) }
    {
        PartList::of(cut(alloc, lists)?)
    }

    /// The parts.
    pub fn parts(&self) -> &[KeptPart]
        ensures { result.now ≡ self.now }
    {
        self.parts.as_slice()
    }

    /// How many values there are.
    pub fn len(&self) -> usize
        ensures { result ≡ length (whole self.now).values }
    {
        self.count
    }

    /// Whether a value is compared by these octets.
    pub fn has(&self, by_keys: bool, octets: &[u8]) -> bool
        ensures { result ≡ list_any (bytes_eq octets.now) (octets_in by_keys (whole self.now)) }
    {
        let sought = SoughtOctets::new(octets);
        for part in self.parts.as_slice() {
            if part.has(by_keys, &sought) {
                return true;
            }
        }
        false
    }

    /// Other owners of all parts.
    pub fn share(&self, alloc: Global) -> Result<Vec<KeptPart>, AllocError>
        ensures { IfOk result (λ v. v.items ≡ self.now) }
    {
        share_parts(alloc, self.parts.as_slice())
    }

    /// The parts, out of the list.
    pub fn into_parts(self) -> Vec<KeptPart>
        ensures { result.items ≡ self }
    {
        let PartList { parts, count: _ } = self;
        parts
    }
}

/// All parts as one.
pub fn into_lists(alloc: Global, parts: Vec<KeptPart>) -> Result<Lists, AllocError>
    ensures whole { IfOk result (λ l. as_part l ≡ whole parts.items) }
    ensures texts { IfOk result (λ l. HaveTexts (as_part l)) }
{
    let mut all = Lists {
        values: Vec::new(alloc),
        keys: Vec::new(alloc),
        forms: Vec::new(alloc),
    };
    for part in parts {
        all = all.joined(part.into_lists(alloc)?)?;
    }
    Ok(all)
}

/// Parts with lists behind them, in parts of their own.
fn extended(alloc: Global, parts: Vec<KeptPart>, more: Lists) -> Result<Vec<KeptPart>, AllocError>
    requires { HaveTexts (as_part more) }
    ensures { IfOk result (λ v. whole v.items ≡ before (whole parts.items) (as_part more)) }
{
    let mut parts = parts;
    let mut behind = cut(alloc, more)?;
    parts.append(&mut behind)?;
    Ok(parts)
}

/// Parts with lists behind them: the last one is filled up, the others stay as they are.
pub fn joined(alloc: Global, parts: Vec<KeptPart>, more: Lists) -> Result<Vec<KeptPart>, AllocError>
    requires { HaveTexts (as_part more) }
    ensures { IfOk result (λ v. whole v.items ≡ before (whole parts.items) (as_part more)) }
{
    let mut parts = parts;
    match parts.pop() {
        Some(last) => {
            let lists = last.into_lists(alloc)?.joined(more)?;
            extended(alloc, parts, lists)
        }
        None => extended(alloc, parts, more),
    }
}
