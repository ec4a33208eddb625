// Plans whose posting lists were looked up. The tree tells whether a number in scope is in the plan's set, without
// memory, and looks no list up again. It is asked about rising numbers: each question takes the lists that it asks
// forward to its number, and a list that it doesn't ask stays behind until a later question.

ghost use Rattle.std.specs.Prelude.{◌≡◌, IfOk};
ghost use Rattle.std.specs.List.{list_any, list_all};
ghost use Rattle.search_plans.specs.private.Resolved.{is_in_resolved, IsResolved, AreResolved, IsResolvedFor, IsDifference, AreSameInRow};
ghost use Rattle.search_plans.specs.private.Sets.{AreSameFrom};

use crate::plan::{Plan, Sided};
use crate::probing::Probe;
use dir_index::{PostingLists, Range};
use std::alloc::{AllocError, Global};

/// A plan whose posting lists were looked up. It is asked about numbers in scope, in rising order.
pub enum ResolvedPlan<'a> {
    /// No number.
    Empty,
    /// Every number of the scope.
    Scope,
    /// The numbers of a posting list that are still to come.
    Set(Probe<'a>),
    /// The numbers of the posting lists of the keys in a range. These are many lists, so what is kept is asked about
    /// each number.
    Range(&'a Range),
    /// The numbers of any of the plans.
    Union(Vec<ResolvedPlan<'a>>),
    /// The numbers of all of the plans.
    Inter(Vec<ResolvedPlan<'a>>),
    /// The numbers that are not of the plan.
    Not(Box<ResolvedPlan<'a>>),
}

// Not derived: see "What the gate takes" in docs/ARCHITECTURE.md.
impl<'a> Drop for ResolvedPlan<'a> {
    fn drop(self) {
        match self {
            ResolvedPlan::Empty => {}
            ResolvedPlan::Scope => {}
            ResolvedPlan::Set(_) => {}
            ResolvedPlan::Range(_) => {}
            ResolvedPlan::Union(_) => {}
            ResolvedPlan::Inter(_) => {}
            ResolvedPlan::Not(_) => {}
        }
    }
}

/// The numbers of the first plan that are not of the second. The second isn't asked about a number that the first
/// lacks.
fn difference<'a>(
    alloc: Global,
    first: ResolvedPlan<'a>,
    second: ResolvedPlan<'a>,
) -> Result<ResolvedPlan<'a>, AllocError>
    ensures { IfOk result (λ r. IsDifference first.entry second.entry r) }
{
    let other = ResolvedPlan::Not(Box::new(alloc, second)?);
    let mut parts = Vec::with_capacity(alloc, 2)?;
    parts.push(first)?;
    parts.push(other)?;
    Ok(ResolvedPlan::Inter(parts))
}

/// Looks up each posting list that a plan names. It takes the memory of the tree.
#[cycle(resolve)]
fn resolve<'a, K: PostingLists>(
    alloc: Global,
    plan: &'a Plan,
    kept: &'a K,
) -> Result<ResolvedPlan<'a>, AllocError>
    ensures { IfOk result (λ r. IsResolved (K.lists kept.now) plan.now r) }
{
    match plan {
        Plan::Empty => Ok(ResolvedPlan::Empty),
        Plan::Scope => Ok(ResolvedPlan::Scope),
        Plan::Posting(posting) => Ok(ResolvedPlan::Set(Probe::new(kept.numbers(posting)))),
        Plan::Range(range) => Ok(ResolvedPlan::Range(range)),
        Plan::Union(plans) => Ok(ResolvedPlan::Union(resolve_each(alloc, plans, kept)?)),
        Plan::Inter(plans) => Ok(ResolvedPlan::Inter(resolve_each(alloc, plans, kept)?)),
        Plan::Minus(plan, without) => {
            let first = resolve(alloc, plan, kept)?;
            let second = resolve(alloc, without, kept)?;
            difference(alloc, first, second)
        }
    }
}

/// The same of each plan of a row, in one piece of memory.
#[cycle(resolve)]
fn resolve_each<'a, K: PostingLists>(
    alloc: Global,
    plans: &'a [Plan],
    kept: &'a K,
) -> Result<Vec<ResolvedPlan<'a>>, AllocError>
    ensures { IfOk result (λ v. AreResolved (K.lists kept.now) plans.now v.items) }
{
    let mut resolved = Vec::with_capacity(alloc, plans.len())?;
    for plan in plans {
        resolved.push(resolve(alloc, plan, kept)?)?;
    }
    Ok(resolved)
}

/// Looks up each posting list that a plan names, unless all numbers that will be asked about are known to be in its
/// set. Then the scope stands for the plan, since it has each of them too: nothing is looked up, and no memory is
/// taken.
fn resolve_unless_sure<'a, K: PostingLists>(
    alloc: Global,
    plan: &'a Plan,
    kept: &'a K,
    is_sure: bool,
) -> Result<ResolvedPlan<'a>, AllocError>
    ensures { IfOk result (λ r. IsResolvedFor is_sure (K.lists kept.now) plan.now r) }
{
    if is_sure {
        Ok(ResolvedPlan::Scope)
    } else {
        resolve(alloc, plan, kept)
    }
}

/// The two plans of a run, resolved.
pub struct ResolvedSides<'a> {
    pub must: ResolvedPlan<'a>,
    pub may: ResolvedPlan<'a>,
}

// Not derived: see "What the gate takes" in docs/ARCHITECTURE.md.
impl<'a> Drop for ResolvedSides<'a> {
    fn drop(self) {
        let ResolvedSides { must: _, may: _ } = self;
    }
}

/// Looks up each posting list that the two plans of a run name, unless all its candidates are known to be among what
/// must be found.
pub fn resolve_sided<'a, K: PostingLists>(
    alloc: Global,
    sided: &'a Sided,
    kept: &'a K,
    is_sure: bool,
) -> Result<ResolvedSides<'a>, AllocError>
    ensures must { IfOk result (λ s. IsResolvedFor is_sure (K.lists kept.now) sided.now.must s.must) }
    ensures may { IfOk result (λ s. IsResolvedFor is_sure (K.lists kept.now) sided.now.may s.may) }
{
    let must = resolve_unless_sure(alloc, &sided.must, kept, is_sure)?;
    let may = resolve_unless_sure(alloc, &sided.may, kept, is_sure)?;
    Ok(ResolvedSides { must, may })
}

/// Whether a number that is in scope is in the set of a resolved plan. Each posting list that is asked goes forward to
/// the number, so the plan says nothing of lower numbers any more; of this number and of those above it the plan says
/// what it said.
#[cycle(has)]
pub fn has_inside<K: PostingLists>(plan: &mut ResolvedPlan, kept: &K, number: u64) -> bool
    ensures found { result ≡ is_in_resolved (K.lists kept.now) plan.old number }
    ensures same { AreSameFrom number (is_in_resolved (K.lists kept.now) plan.new) (is_in_resolved (K.lists kept.now)
        plan.old) }
{
    match plan {
        ResolvedPlan::Empty => false,
        ResolvedPlan::Scope => true,
        ResolvedPlan::Set(list) => list.has(number),
        ResolvedPlan::Range(range) => kept.in_range(range, number),
        ResolvedPlan::Union(plans) => any_has(plans, kept, number),
        ResolvedPlan::Inter(plans) => all_have(plans, kept, number),
        ResolvedPlan::Not(plan) => !has_inside(plan, kept, number),
    }
}

/// Whether a number that is in scope is in the set of one of the plans. Those behind the first that has it aren't
/// asked.
#[cycle(has)]
fn any_has<K: PostingLists>(plans: &mut [ResolvedPlan], kept: &K, number: u64) -> bool
    ensures found { result ≡ list_any (λ p. is_in_resolved (K.lists kept.now) p number) plans.old }
    ensures same { AreSameInRow number (K.lists kept.now) plans.new plans.old }
{
    for i in 0..plans.len() {
        if has_inside(&mut plans[i], kept, number) {
            return true;
        }
    }
    false
}

/// Whether a number that is in scope is in the set of all the plans. Those behind the first that lacks it aren't asked.
#[cycle(has)]
fn all_have<K: PostingLists>(plans: &mut [ResolvedPlan], kept: &K, number: u64) -> bool
    ensures found { result ≡ list_all (λ p. is_in_resolved (K.lists kept.now) p number) plans.old }
    ensures same { AreSameInRow number (K.lists kept.now) plans.new plans.old }
{
    for i in 0..plans.len() {
        if !has_inside(&mut plans[i], kept, number) {
            return false;
        }
    }
    true
}
