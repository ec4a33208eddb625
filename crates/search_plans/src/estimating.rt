// Estimates what it costs to draw candidates from a plan's posting lists. It decides a run's cost and never what it
// gives.

use crate::plan::Plan;
use crate::scope::Scope;
use dir_index::PostingLists;

/// About how many looks at a walk it costs to ask the plans of one candidate.
const LOOKS_TO_ASK: u64 = 32;

/// About how many looks it costs to ask whether a number is in scope.
const LOOKS_TO_FIND: u64 = 8;

/// About how many looks it costs to gather a number, and to sort it with the others: a handful of comparisons for each.
const LOOKS_TO_GATHER: u64 = 8;

/// What it costs to draw all candidates of a plan.
#[derive(Clone, Copy)]
struct Cost {
    /// About how many numbers are drawn.
    numbers: u64,
    /// How many walks they are drawn from.
    walks: u64,
    /// How many of them are gathered and sorted first.
    gathered: u64,
}

/// The cost of drawing nothing.
fn of_nothing() -> Cost {
    Cost {
        numbers: 0,
        walks: 0,
        gathered: 0,
    }
}

/// The cost of one walk through numbers that lie ready.
fn of_walk(numbers: u64) -> Cost {
    Cost {
        numbers,
        walks: 1,
        gathered: 0,
    }
}

/// The cost of one walk through numbers that are gathered for it.
fn of_gathering(numbers: u64) -> Cost {
    Cost {
        numbers,
        walks: 1,
        gathered: numbers,
    }
}

/// The cost of drawing from both.
fn of_both(one: Cost, other: Cost) -> Cost {
    Cost {
        numbers: one.numbers.saturating_add(other.numbers),
        walks: one.walks.saturating_add(other.walks),
        gathered: one.gathered.saturating_add(other.gathered),
    }
}

/// The cost in looks: each number that is drawn costs a look at each walk, and then it is asked about.
fn looks(cost: Cost) -> u64 {
    let drawn = cost
        .numbers
        .saturating_mul(cost.walks.saturating_add(LOOKS_TO_ASK));
    drawn.saturating_add(cost.gathered.saturating_mul(LOOKS_TO_GATHER))
}

/// What it costs to draw from the plan.
#[cycle(estimate)]
fn cost_of<K: PostingLists>(plan: &Plan, kept: &K, scope: &Scope) -> Cost {
    match plan {
        Plan::Empty => of_nothing(),
        Plan::Scope => of_walk(scope.len()),
        Plan::Posting(posting) => of_walk(kept.numbers(posting).len()),
        Plan::Range(range) => of_gathering(kept.about(range) as u64),
        Plan::Union(plans) => cost_of_each(plans, kept, scope),
        Plan::Inter(plans) => cost_of_one(plans, kept, scope),
        Plan::Minus(plan, _) => cost_of(plan, kept, scope),
    }
}

/// The costs of all of them together.
#[cycle(estimate)]
fn cost_of_each<K: PostingLists>(plans: &[Plan], kept: &K, scope: &Scope) -> Cost {
    let mut sum = of_nothing();
    for plan in plans {
        sum = of_both(sum, cost_of(plan, kept, scope));
    }
    sum
}

/// The least of the costs, and of the scope's.
#[cycle(estimate)]
fn cost_of_one<K: PostingLists>(plans: &[Plan], kept: &K, scope: &Scope) -> Cost {
    let mut least = of_walk(scope.len());
    for plan in plans {
        let cost = cost_of(plan, kept, scope);
        if looks(cost) < looks(least) {
            least = cost;
        }
    }
    least
}

/// The place of the plan that costs least; the number of plans, where none costs less than the scope.
pub fn smallest<K: PostingLists>(plans: &[Plan], kept: &K, scope: &Scope) -> usize {
    let mut best = plans.len();
    let mut least = looks(of_walk(scope.len()));
    for (i, plan) in plans.iter().enumerate() {
        let about = looks(cost_of(plan, kept, scope));
        if about < least {
            least = about;
            best = i;
        }
    }
    best
}

/// Whether drawing so many numbers from posting lists that hold what is found costs less than going through the scope.
pub fn is_cheap_listed(numbers: u64, lists: usize, scope: &Scope) -> bool {
    let drawn = numbers.saturating_mul((lists as u64).saturating_add(LOOKS_TO_FIND));
    drawn < looks(of_walk(scope.len()))
}

/// Whether drawing from the plan costs less than going through the scope. It takes no memory: nothing is
/// gathered for it.
pub fn is_cheap<K: PostingLists>(plan: &Plan, kept: &K, scope: &Scope) -> bool {
    looks(cost_of(plan, kept, scope)) < looks(of_walk(scope.len()))
}
