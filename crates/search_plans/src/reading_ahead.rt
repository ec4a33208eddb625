// Posting lists of an intersection, read ahead. A run goes over the shortest list, and goes forward in another to each
// of its numbers; where no cache has their leaves, each is waited for. Here the leaves of both are read at once.

use crate::resolved::ResolvedPlan;
use dir_index::NumberSet;

/// A list of more numbers isn't read ahead: it wouldn't stay in the cache.
const MOST: u64 = 16384;

/// A list that has so many times the numbers of the shortest isn't read ahead either, since a run passes most of its
/// leaves over.
const TIMES: u64 = 16;

/// How many numbers a list has; the most where there is none.
fn length_of(list: Option<&NumberSet>) -> u64 {
    match list {
        Some(list) => list.len(),
        None => u64::MAX,
    }
}

/// The list of a plan that is one, if it is shorter than the other.
fn shorter<'a>(plan: &ResolvedPlan<'a>, other: Option<&'a NumberSet>) -> Option<&'a NumberSet> {
    match plan {
        ResolvedPlan::Set(probe) => {
            let list = probe.numbers();
            if list.len() < length_of(other) {
                Some(list)
            } else {
                None
            }
        }
        _ => None,
    }
}

/// The two shortest lists among plans.
fn two_shortest<'a>(plans: &[ResolvedPlan<'a>]) -> (Option<&'a NumberSet>, Option<&'a NumberSet>) {
    let mut first = None;
    let mut second = None;
    for plan in plans {
        if let Some(list) = shorter(plan, first) {
            second = first;
            first = Some(list);
        } else if let Some(list) = shorter(plan, second) {
            second = Some(list);
        }
    }
    (first, second)
}

/// Reads two lists of an intersection, unless they are too long.
fn read_both(first: &NumberSet, second: &NumberSet) -> u64 {
    if second.len() > MOST || second.len() > first.len().saturating_mul(TIMES) {
        return 0;
    }
    first.read_ahead().wrapping_add(second.read_ahead())
}

/// Reads the two shortest lists of an intersection.
fn read_shortest(plans: &[ResolvedPlan]) -> u64 {
    match two_shortest(plans) {
        (Some(first), Some(second)) => read_both(first, second),
        _ => 0,
    }
}

/// Reads the lists that a run over this plan goes over.
#[cycle(read)]
pub fn read_lists(plan: &ResolvedPlan) -> u64 {
    match plan {
        ResolvedPlan::Inter(plans) => read_shortest(plans),
        ResolvedPlan::Union(plans) => read_lists_of_each(plans),
        _ => 0,
    }
}

/// The same for each plan of a row.
#[cycle(read)]
fn read_lists_of_each(plans: &[ResolvedPlan]) -> u64 {
    let mut sum = 0u64;
    for plan in plans {
        sum = sum.wrapping_add(read_lists(plan));
    }
    sum
}
