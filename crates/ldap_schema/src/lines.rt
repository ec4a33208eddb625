//! Says by ranks whether classes are in line (RFC 4512 2.4.2).

ghost use Rattle.std.specs.Prelude.{◌≡◌, IfOk, cond, filter, nat_le, nat_lt};
ghost use Rattle.std.specs.List.Sorted.{IsPermutation, IsNonDecreasingBy};
ghost use Rattle.ldap_schema.specs.Superclasses.{filled, AreSuperclassesKnown};
ghost use Rattle.ldap_schema.specs.Lines.{rank_in, are_all_in_line, lowest_in};
ghost use Rattle.ldap_schema.specs.private.Lines.{IsRanking, cut, is_under_in, falls, falls_whole, greatest as greatest_of};

use crate::class::{ClassId, ObjectClass};
use crate::gathered::{Gathered, is_class_among};
use crate::pairs::lowest_among;
use crate::superclasses::{add_missing, superclasses_of};
use std::alloc::{AllocError, Global};

/// The rank of a class; 0, where it has none.
pub fn rank_of(ranks: &[usize], class: ClassId) -> usize
    ensures { result ≡ rank_in ranks.now class }
{
    match ranks.get(class.number()) {
        Some(rank) => *rank,
        None => 0,
    }
}

/// Whether the class has at least this rank.
fn is_high(ranks: &[usize], low: usize, class: ClassId) -> bool
    ensures { result ≡ nat_le low (rank_in ranks.now class) }
{
    low <= rank_of(ranks, class)
}

/// Those of the classes that have at least this rank.
fn high_ones(
    alloc: Global,
    ranks: &[usize],
    low: usize,
    classes: &[ClassId],
) -> Result<Vec<ClassId>, AllocError>
    ensures { IfOk result (λ v. v.items ≡ filter (λ u. nat_le low (rank_in ranks.now u)) classes.now) }
{
    classes
        .iter()
        .copied()
        .filter(|class| is_high(ranks, low, *class))
        .collect(alloc)
}

/// The class, and those of its superclasses to which superclasses of at least this rank lead. Each class is looked at
/// once.
fn gather_high(
    alloc: Global,
    classes: &[ObjectClass],
    ranks: &[usize],
    low: usize,
    named: &[ClassId],
) -> Result<Gathered, AllocError>
    ensures { IfOk result (λ g. g ≡ filled (cut ranks.now low classes.now) named.now) }
{
    let mut have = Gathered::of(alloc, named)?;
    for place in 0..named.len() + classes.len() {
        let Some(class) = have.at(place) else {
            return Ok(have);
        };
        let above = high_ones(alloc, ranks, low, superclasses_of(classes, class))?;
        add_missing(&mut have, above.as_slice())?;
    }
    Ok(have)
}

/// Whether the first class is the second one, or the second is a superclass of it. Direct superclasses are looked at
/// first; the search goes up from there through classes of at least the second one's rank, since below it nothing leads
/// there.
fn is_under(
    alloc: Global,
    classes: &[ObjectClass],
    ranks: &[usize],
    below: ClassId,
    above: ClassId,
) -> Result<bool, AllocError>
    requires known { AreSuperclassesKnown classes.now }
    requires ranking { IsRanking classes.now ranks.now }
    ensures { IfOk result (λ b. b ≡ is_under_in classes.now below above) }
{
    if is_class_among(superclasses_of(classes, below), above) {
        return Ok(true);
    }
    let found = gather_high(alloc, classes, ranks, rank_of(ranks, above), &[below])?;
    Ok(found.is_or_has(below, above))
}

/// Whether each of the classes is above the one behind it, the first one before them too.
fn fall(
    alloc: Global,
    classes: &[ObjectClass],
    ranks: &[usize],
    first: ClassId,
    others: &[ClassId],
) -> Result<bool, AllocError>
    requires known { AreSuperclassesKnown classes.now }
    requires ranking { IsRanking classes.now ranks.now }
    ensures { IfOk result (λ b. b ≡ falls (is_under_in classes.now) first others.now) }
{
    let mut above = first;
    for class in others {
        if !is_under(alloc, classes, ranks, *class, above)? {
            return Ok(false);
        }
        above = *class;
    }
    Ok(true)
}

/// Whether each of the classes is above the one behind it.
fn all_fall(
    alloc: Global,
    classes: &[ObjectClass],
    ranks: &[usize],
    sorted: &[ClassId],
) -> Result<bool, AllocError>
    requires known { AreSuperclassesKnown classes.now }
    requires ranking { IsRanking classes.now ranks.now }
    ensures { IfOk result (λ b. b ≡ falls_whole (is_under_in classes.now) sorted.now) }
{
    match sorted {
        [] => Ok(true),
        [first, others @ ..] => fall(alloc, classes, ranks, *first, others),
    }
}

/// The classes in order of rank.
fn by_rank(alloc: Global, ranks: &[usize], named: &[ClassId]) -> Result<Vec<ClassId>, AllocError>
    ensures same { IfOk result (λ v. IsPermutation named.now v.items) }
    ensures rising { IfOk result (λ v. IsNonDecreasingBy (rank_in ranks.now) v.items) }
{
    let mut sorted = Vec::from_slice(alloc, named)?;
    sorted.sort_by_key(|class| rank_of(ranks, *class))?;
    Ok(sorted)
}

/// Whether of each two of the classes one is under the other: in order of rank, each is under the one before it.
pub fn are_ranked_in_line(
    alloc: Global,
    classes: &[ObjectClass],
    ranks: &[usize],
    named: &[ClassId],
) -> Result<bool, AllocError>
    requires known { AreSuperclassesKnown classes.now }
    requires ranking { IsRanking classes.now ranks.now }
    ensures { IfOk result (λ b. b ≡ are_all_in_line (is_under_in classes.now) named.now) }
{
    let sorted = by_rank(alloc, ranks, named)?;
    all_fall(alloc, classes, ranks, sorted.as_slice())
}

/// The class of the greater rank; the first one, where they have the same.
fn higher(ranks: &[usize], a: ClassId, b: ClassId) -> ClassId
    ensures { result ≡ cond (nat_lt (rank_in ranks.now a) (rank_in ranks.now b)) b a }
{
    if rank_of(ranks, a) < rank_of(ranks, b) {
        b
    } else {
        a
    }
}

/// The first class that has the greatest rank.
fn greatest(ranks: &[usize], first: ClassId, others: &[ClassId]) -> ClassId
    ensures { result ≡ greatest_of ranks.now first others.now }
{
    let mut best = first;
    for class in others {
        best = higher(ranks, best, *class);
    }
    best
}

/// The first of the classes that is under all of them: it can only be the one of the greatest rank.
pub fn lowest_ranked(
    alloc: Global,
    classes: &[ObjectClass],
    ranks: &[usize],
    named: &[ClassId],
) -> Result<Option<ClassId>, AllocError>
    requires known { AreSuperclassesKnown classes.now }
    requires ranking { IsRanking classes.now ranks.now }
    ensures { IfOk result (λ c. c ≡ lowest_in (is_under_in classes.now) named.now named.now) }
{
    match named {
        [] => Ok(None),
        [first, ..] => lowest_among(alloc, classes, &[greatest(ranks, *first, named)], named),
    }
}
