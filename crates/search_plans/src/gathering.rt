// Gathers the candidates of a plan: walks that together have at least the numbers of its set within the scope.

ghost use Rattle.std.specs.Prelude.{◌≡◌, ℕ, false, IfOk, OnOk};
ghost use Rattle.std.specs.List.{list_any, list_all};
ghost use Rattle.dir_index.specs.Postings.{has_number, IsRising};
ghost use Rattle.dir_index.specs.private.Postings.{AreRising};
ghost use Rattle.search_plans.specs.Sets.{is_in};
ghost use Rattle.search_plans.specs.private.Runs.{AreInside, AreSure};
ghost use Rattle.search_plans.specs.Streams.{Covers, Draws, together};
ghost use Rattle.search_plans.specs.private.Streams.{Gathers, GathersAll};

use crate::estimating::{is_cheap, is_cheap_listed, smallest};
use crate::listing::{ListWalks, listed};
use crate::plan::{Plan, Sided};
use crate::scope::Scope;
use crate::stream::Stream;
use crate::walking::Walk;
use dir_index::{NumberSet, PostingLists, Range};
use std::alloc::{AllocError, Global};

/// Puts one walk behind those that are there.
fn push_walk<'a>(walk: Walk<'a>, into: &mut Vec<Walk<'a>>) -> Result<(), AllocError>
    requires { IsRising walk }
    ensures gathers { OnOk result (GathersAll walk.entry into.old.items into.new.items) }
    ensures rising { OnOk result (AreRising into.old.items → AreRising into.new.items) }
{
    into.push(walk)?;
    Ok(())
}

/// The numbers of a range, each once, in rising order.
fn numbers_in<K: PostingLists>(
    alloc: Global,
    range: &Range,
    kept: &K,
) -> Result<Vec<u64>, AllocError>
    ensures same { IfOk result (λ v. (n : ℕ)
        → has_number n v.items ≡ has_number n ((K.lists kept.now).range range.now)) }
    ensures rising { IfOk result (λ v. IsRising v.items) }
{
    let mut numbers = Vec::new(alloc);
    kept.push_range(range, &mut numbers)?;
    numbers.sort_unstable();
    numbers.dedup();
    Ok(numbers)
}

/// Puts a walk through the numbers of a range behind those that are there.
fn push_range<'a, K: PostingLists>(
    alloc: Global,
    range: &Range,
    kept: &K,
    into: &mut Vec<Walk<'a>>,
) -> Result<(), AllocError>
    ensures gathers { OnOk result (GathersAll ((K.lists kept.now).range range.now) into.old.items into.new.items) }
    ensures rising { OnOk result (AreRising into.old.items → AreRising into.new.items) }
{
    let numbers = numbers_in(alloc, range, kept)?;
    push_walk(Walk::of_gathered(numbers), into)
}

/// Puts a walk through a set behind those that are there.
fn push_set<'a>(set: &'a NumberSet, into: &mut Vec<Walk<'a>>) -> Result<(), AllocError>
    ensures gathers { OnOk result (GathersAll set.now into.old.items into.new.items) }
    ensures rising { OnOk result (AreRising into.old.items → AreRising into.new.items) }
{
    set.rises();
    push_walk(Walk::of_set(set), into)
}

/// Puts a walk through the scope behind those that are there.
fn push_scope<'a>(scope: &Scope<'a>, into: &mut Vec<Walk<'a>>) -> Result<(), AllocError>
    ensures gathers { OnOk result (GathersAll scope.now into.old.items into.new.items) }
    ensures rising { OnOk result (AreRising into.old.items → AreRising into.new.items) }
{
    scope.rises();
    push_walk(scope.walk(), into)
}

/// Puts walks behind those that are there that together have each number of the scope that is in the set of the plan.
#[cycle(gather)]
fn push_walks<'a, K: PostingLists>(
    alloc: Global,
    plan: &Plan,
    kept: &'a K,
    scope: &Scope<'a>,
    into: &mut Vec<Walk<'a>>,
) -> Result<(), AllocError>
    ensures gathers { OnOk result (Gathers (is_in (K.lists kept.now) scope.now plan.now) scope.now
        into.old.items into.new.items) }
    ensures rising { OnOk result (AreRising into.old.items → AreRising into.new.items) }
{
    match plan {
        Plan::Empty => Ok(()),
        Plan::Scope => push_scope(scope, into),
        Plan::Posting(posting) => push_set(kept.numbers(posting), into),
        Plan::Range(range) => push_range(alloc, range, kept, into),
        Plan::Union(plans) => push_each(alloc, plans, kept, scope, into),
        Plan::Inter(plans) => push_one(alloc, plans, kept, scope, into),
        Plan::Minus(plan, _) => push_walks(alloc, plan, kept, scope, into),
    }
}

/// The same for all that are in the set of one of the plans.
#[cycle(gather)]
fn push_each<'a, K: PostingLists>(
    alloc: Global,
    plans: &[Plan],
    kept: &'a K,
    scope: &Scope<'a>,
    into: &mut Vec<Walk<'a>>,
) -> Result<(), AllocError>
    ensures gathers { OnOk result (Gathers (λ n. list_any (λ p. is_in (K.lists kept.now) scope.now p n) plans.now)
        scope.now into.old.items into.new.items) }
    ensures rising { OnOk result (AreRising into.old.items → AreRising into.new.items) }
{
    for plan in plans {
        push_walks(alloc, plan, kept, scope, into)?;
    }
    Ok(())
}

/// The same for all that are in the sets of all the plans: the walks of the plan that seems to cost least, or
/// the scope.
#[cycle(gather)]
fn push_one<'a, K: PostingLists>(
    alloc: Global,
    plans: &[Plan],
    kept: &'a K,
    scope: &Scope<'a>,
    into: &mut Vec<Walk<'a>>,
) -> Result<(), AllocError>
    ensures gathers { OnOk result (Gathers (λ n. list_all (λ p. is_in (K.lists kept.now) scope.now p n) plans.now)
        scope.now into.old.items into.new.items) }
    ensures rising { OnOk result (AreRising into.old.items → AreRising into.new.items) }
{
    let best = smallest(plans, kept, scope);
    for (i, plan) in plans.iter().enumerate() {
        if i == best {
            return push_walks(alloc, plan, kept, scope, into);
        }
    }
    push_scope(scope, into)
}

/// What is known of each candidate of a run, and then isn't asked.
#[derive(Clone, Copy)]
pub struct Known {
    /// That it is in scope.
    pub is_inside: bool,
    /// That it is in the plan of what must be found.
    pub is_sure: bool,
}

/// Candidates, and what is known of them.
#[derive(Drop)]
pub struct Drawn<'a> {
    pub stream: Stream<'a>,
    pub known: Known,
}

/// The scope as candidates.
fn scope_alone<'a>(alloc: Global, scope: &Scope<'a>) -> Result<Drawn<'a>, AllocError>
    ensures stream { IfOk result (λ d. d.stream ≡ scope.now) }
    ensures unsure { IfOk result (λ d. d.known.is_sure ≡ false) }
{
    scope.rises();
    let mut walks = Vec::new(alloc);
    walks.push(scope.walk())?;
    Ok(Drawn {
        stream: Stream::new(walks),
        known: Known {
            is_inside: true,
            is_sure: false,
        },
    })
}

/// The candidates from the plan's walks.
fn from_plan<'a, K: PostingLists>(
    alloc: Global,
    plan: &Plan,
    kept: &'a K,
    scope: &Scope<'a>,
) -> Result<Drawn<'a>, AllocError>
    ensures covers { IfOk result (λ d. Covers (is_in (K.lists kept.now) scope.now plan.now) scope.now d.stream) }
    ensures rising { IfOk result (λ d. IsRising d.stream) }
    ensures outside { IfOk result (λ d. d.known.is_inside ≡ false) }
    ensures unsure { IfOk result (λ d. d.known.is_sure ≡ false) }
{
    let mut walks = Vec::new(alloc);
    push_walks(alloc, plan, kept, scope, &mut walks)?;
    Ok(Drawn {
        stream: Stream::new(walks),
        known: Known {
            is_inside: false,
            is_sure: false,
        },
    })
}

/// The candidates, from the plan's walks where that is cheap, else from the scope. Nothing is gathered before
/// that is settled.
pub fn draw<'a, K: PostingLists>(
    alloc: Global,
    plan: &Plan,
    kept: &'a K,
    scope: &Scope<'a>,
) -> Result<Drawn<'a>, AllocError>
    ensures covers { IfOk result (λ d. Covers (is_in (K.lists kept.now) scope.now plan.now) scope.now d.stream) }
    ensures rising { IfOk result (λ d. IsRising d.stream) }
    ensures inside { IfOk result (λ d. AreInside d.known.is_inside d.stream scope.now) }
    ensures unsure { IfOk result (λ d. d.known.is_sure ≡ false) }
{
    scope.rises();
    if is_cheap(plan, kept, scope) {
        from_plan(alloc, plan, kept, scope)
    } else {
        scope_alone(alloc, scope)
    }
}

/// The candidates from walks through posting lists that hold what is found, and nothing else.
fn from_lists<'a>(walks: Vec<Walk<'a>>) -> Drawn<'a>
    requires { AreRising walks.items }
    ensures stream { result.stream ≡ together walks.entry.items }
    ensures outside { result.known.is_inside ≡ false }
{
    Drawn {
        stream: Stream::new(walks),
        known: Known {
            is_inside: false,
            is_sure: true,
        },
    }
}

/// The candidates of a run. Where what must be and what may be are the same posting lists, each list is looked up once,
/// and nothing else is asked of what they hold.
pub fn draw_sided<'a, K: PostingLists>(
    alloc: Global,
    sided: &Sided,
    kept: &'a K,
    scope: &Scope<'a>,
) -> Result<Drawn<'a>, AllocError>
    ensures covers { IfOk result (λ d. Covers (is_in (K.lists kept.now) scope.now sided.now.may) scope.now d.stream) }
    ensures rising { IfOk result (λ d. IsRising d.stream) }
    ensures inside { IfOk result (λ d. AreInside d.known.is_inside d.stream scope.now) }
    ensures sure { IfOk result (λ d. AreSure d.known.is_sure (is_in (K.lists kept.now) scope.now sided.now.must)
        d.stream) }
{
    scope.rises();
    match listed(alloc, &sided.may, &sided.must, kept)? {
        Some(listed) => {
            let ListWalks { walks, numbers } = listed;
            if is_cheap_listed(numbers, walks.len(), scope) {
                Ok(from_lists(walks))
            } else {
                scope_alone(alloc, scope)
            }
        }
        None => draw(alloc, &sided.may, kept, scope),
    }
}

/// The candidates of a plan, in rising order: all numbers of the scope that are in its set are among them,
/// and others may be. What they are drawn from stays borrowed. The walks, and the numbers of a range, which
/// are gathered once and sorted, are all the memory that is taken, here and later.
pub fn candidates<'a, K: PostingLists>(
    alloc: Global,
    plan: &Plan,
    kept: &'a K,
    scope: &Scope<'a>,
) -> Result<Stream<'a>, AllocError>
    ensures covers { IfOk result (λ s. Covers (is_in (K.lists kept.now) scope.now plan.now) scope.now s) }
    ensures rising { IfOk result (λ s. IsRising s) }
    ensures draws { IfOk result (λ s. Draws (is_in (K.lists kept.now) scope.now plan.now) scope.now s) }
{
    scope.rises();
    let drawn = draw(alloc, plan, kept, scope)?;
    let Drawn { stream, known: _ } = drawn;
    Ok(stream)
}
