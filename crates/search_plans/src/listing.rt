// Candidates that need not be asked about: where what must be and what may be are the same `or` of posting lists, what
// these hold is the answer.

ghost use Rattle.std.specs.Prelude.{◌≡◌, ◌||◌, ℕ, List, true, IfOk, IfSome};
ghost use Rattle.std.specs.List.{list_any};
ghost use Rattle.dir_index.specs.Postings.{Lists, has_number};
ghost use Rattle.dir_index.specs.private.Postings.{AreRising};
ghost use Rattle.search_plans.specs.Sets.{is_in};
ghost use Rattle.search_plans.specs.private.Sets.{is_listed};

use crate::plan::Plan;
use crate::walking::Walk;
use dir_index::{NumberSet, Posting, PostingLists};
use std::alloc::{AllocError, Global};

/// Whether two postings are the same.
fn is_same_posting(one: &Posting, other: &Posting) -> bool
    ensures { result ≡ true → one.now ≡ other.now }
{
    match (one, other) {
        (Posting::Present(a), Posting::Present(b)) => a == b,
        (Posting::Equal(a, key), Posting::Equal(b, other_key)) => a == b && key.is_same(other_key),
        _ => false,
    }
}

/// Where two plans are the same `or` of posting lists, puts the posting of each list behind those that are there. Empty
/// plans may stand among the lists, as of a subtype in whose syntax the assertion isn't. `false` where they aren't the
/// same; some postings may have come then.
#[cycle(list)]
pub fn push_listed<'p>(
    one: &'p Plan,
    other: &Plan,
    into: &mut Vec<&'p Posting>,
) -> Result<bool, AllocError>
    ensures same { IfOk result (λ b. b ≡ true → (lists : Lists) (scope : List ℕ) (n : ℕ)
        → is_in lists scope one.now n ≡ is_in lists scope other.now n) }
    ensures exact { IfOk result (λ b. b ≡ true → (lists : Lists) (scope : List ℕ) (n : ℕ)
        → list_any (λ p. is_listed lists n p.now) into.new.items
        ≡ (list_any (λ p. is_listed lists n p.now) into.old.items || is_in lists scope one.now n)) }
{
    match (one, other) {
        (Plan::Empty, Plan::Empty) => Ok(true),
        (Plan::Posting(posting), Plan::Posting(other_posting)) => {
            if !is_same_posting(posting, other_posting) {
                return Ok(false);
            }
            into.push(posting)?;
            Ok(true)
        }
        (Plan::Union(plans), Plan::Union(others)) => push_each_listed(plans, others, into),
        _ => Ok(false),
    }
}

/// The same for plans and others, each with the one at its place.
#[cycle(list)]
fn push_each_listed<'p>(
    plans: &'p [Plan],
    others: &[Plan],
    into: &mut Vec<&'p Posting>,
) -> Result<bool, AllocError>
    ensures same { IfOk result (λ b. b ≡ true → (lists : Lists) (scope : List ℕ) (n : ℕ)
        → list_any (λ p. is_in lists scope p n) plans.now ≡ list_any (λ p. is_in lists scope p n) others.now) }
    ensures exact { IfOk result (λ b. b ≡ true → (lists : Lists) (scope : List ℕ) (n : ℕ)
        → list_any (λ p. is_listed lists n p.now) into.new.items
        ≡ (list_any (λ p. is_listed lists n p.now) into.old.items || list_any (λ p. is_in lists scope p n) plans.now)) }
{
    if plans.len() != others.len() {
        return Ok(false);
    }
    for i in 0..plans.len() {
        if !push_listed(&plans[i], &others[i], into)? {
            return Ok(false);
        }
    }
    Ok(true)
}

/// A walk through each set.
fn walks_of<'a>(alloc: Global, sets: &[&'a NumberSet]) -> Result<Vec<Walk<'a>>, AllocError>
    ensures exact { IfOk result (λ v. (n : ℕ) → list_any (has_number n) v.items ≡ list_any (λ s. has_number n s.now)
        sets.now) }
    ensures rising { IfOk result (λ v. AreRising v.items) }
{
    let mut walks = Vec::with_capacity(alloc, sets.len())?;
    for set in sets {
        set.rises();
        walks.push(Walk::of_set(set))?;
    }
    Ok(walks)
}

/// How many numbers sets have, added up.
fn numbers_in(sets: &[&NumberSet]) -> u64 {
    let mut count = 0u64;
    for set in sets {
        count = count.saturating_add(set.len());
    }
    count
}

/// Walks through posting lists, and how many numbers these have.
#[derive(Drop)]
pub struct ListWalks<'a> {
    pub walks: Vec<Walk<'a>>,
    pub numbers: u64,
}

/// Where two plans are the same `or` of posting lists, a walk through each of these. The lists are looked up together.
/// None where the plans aren't the same.
pub fn listed<'a, K: PostingLists>(
    alloc: Global,
    one: &Plan,
    other: &Plan,
    kept: &'a K,
) -> Result<Option<ListWalks<'a>>, AllocError>
    ensures same { IfOk result (λ o. IfSome o (λ l. (scope : List ℕ) (n : ℕ)
        → is_in (K.lists kept.now) scope one.now n ≡ is_in (K.lists kept.now) scope other.now n)) }
    ensures exact { IfOk result (λ o. IfSome o (λ l. (scope : List ℕ) (n : ℕ)
        → list_any (has_number n) l.walks.items ≡ is_in (K.lists kept.now) scope one.now n)) }
    ensures rising { IfOk result (λ o. IfSome o (λ l. AreRising l.walks.items)) }
{
    let mut postings = Vec::new(alloc);
    if !push_listed(one, other, &mut postings)? {
        return Ok(None);
    }
    let sets = kept.numbers_of_each(&postings)?;
    let walks = walks_of(alloc, &sets)?;
    let numbers = numbers_in(&sets);
    Ok(Some(ListWalks { walks, numbers }))
}
