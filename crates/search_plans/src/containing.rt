// Membership in plans: whether a number is in what a plan allows. It takes no memory.

ghost use Rattle.std.specs.Prelude.{◌≡◌};
ghost use Rattle.std.specs.List.{list_any, list_all};
ghost use Rattle.search_plans.specs.Sets.{is_in};
ghost use Rattle.search_plans.specs.private.Sets.{is_in_when};

use crate::plan::Plan;
use crate::scope::Scope;
use dir_index::PostingLists;

/// Whether a number is in the set of a plan, where the caller knows whether it is in scope. Each posting list
/// that the plan names costs two look-ups: of the list, and of the number in it.
#[cycle(contains)]
fn is_member<K: PostingLists>(plan: &Plan, kept: &K, in_scope: bool, number: u64) -> bool
    ensures { result ≡ is_in_when (K.lists kept.now) in_scope plan.now number }
{
    match plan {
        Plan::Empty => false,
        Plan::Scope => in_scope,
        Plan::Posting(posting) => kept.numbers(posting).contains(number),
        Plan::Range(range) => kept.in_range(range, number),
        Plan::Union(plans) => in_any(plans, kept, in_scope, number),
        Plan::Inter(plans) => in_all(plans, kept, in_scope, number),
        Plan::Minus(plan, without) => {
            is_member(plan, kept, in_scope, number) && !is_member(without, kept, in_scope, number)
        }
    }
}

/// Whether a number is in the set of one of the plans.
#[cycle(contains)]
fn in_any<K: PostingLists>(plans: &[Plan], kept: &K, in_scope: bool, number: u64) -> bool
    ensures { result ≡ list_any (λ p. is_in_when (K.lists kept.now) in_scope p number) plans.now }
{
    for plan in plans {
        if is_member(plan, kept, in_scope, number) {
            return true;
        }
    }
    false
}

/// Whether a number is in the set of all the plans.
#[cycle(contains)]
fn in_all<K: PostingLists>(plans: &[Plan], kept: &K, in_scope: bool, number: u64) -> bool
    ensures { result ≡ list_all (λ p. is_in_when (K.lists kept.now) in_scope p number) plans.now }
{
    for plan in plans {
        if !is_member(plan, kept, in_scope, number) {
            return false;
        }
    }
    true
}

/// Whether a number is in the set of a plan. The scope costs one look-up, and each posting list that the plan
/// names two.
pub fn contains<K: PostingLists>(plan: &Plan, kept: &K, scope: &Scope, number: u64) -> bool
    ensures { result ≡ is_in (K.lists kept.now) scope.now plan.now number }
{
    is_member(plan, kept, scope.has(number), number)
}
