// Joins two bounds on one type into one range: more plans that hold wherever all plans of an `and` hold, from which
// fewer candidates are drawn.

ghost use Rattle.std.specs.Prelude.{◌≡◌, ◌<◌, ◌≤◌, true, List, length, IfOk, OnOk};
ghost use Rattle.std.specs.Option.{IfSome};
ghost use Rattle.std.specs.List.{list_all};
ghost use Rattle.ldap_eval.specs.dir_entry.Entry.{KeyedAttribute};
ghost use Rattle.dir_index.specs.index_choice.declared.kinds.Kinds.{Kinds};
ghost use Rattle.search_plans.specs.Sets.{holds};
ghost use Rattle.search_plans.specs.private.Sides.{IsImplied, is_between};

use crate::plan::Plan;
use dir_index::{Posting, Range};
use ldap_eval::{Key, TypeId};
use std::alloc::{AllocError, Global};

/// An equal bound.
fn copy_bound(alloc: Global, bound: &Option<Key>) -> Result<Option<Key>, AllocError>
    ensures { IfOk result (λ b. b ≡ bound.now) }
{
    match bound {
        Some(key) => Ok(Some(key.copy(alloc)?)),
        None => Ok(None),
    }
}

/// The range that a plan is, or that is its only part: an item on one type is an `or` of one leaf.
fn as_range(plan: &Plan) -> Option<&Range>
    ensures { IfSome result (λ r. (ix : List Kinds) (e : List KeyedAttribute)
        → holds ix e plan.now ≡ true → holds ix e (Plan.Range r.now) ≡ true) }
{
    match plan {
        Plan::Range(range) => Some(range),
        Plan::Union(plans) => match plans.as_slice() {
            [Plan::Range(range)] => Some(range),
            _ => None,
        },
        _ => None,
    }
}

/// The first of the plans that is a range of the type with an upper bound alone.
fn upper_bound(plans: &[Plan], type_id: TypeId) -> Option<&Range>
    ensures of_type { IfSome result (λ r. r.now.type_id ≡ type_id) }
    ensures implied { IfSome result (λ r. IsImplied plans.now (Plan.Range r.now)) }
{
    for plan in plans {
        if let Some(range) = as_range(plan) {
            if range.type_id == type_id && range.from.is_none() && range.upto.is_some() {
                return Some(range);
            }
        }
    }
    None
}

/// The entries with a value from the lower bound of one range to the upper bound of another, and those that
/// may have several values of the type: one of these may be in the one range, and another in the other.
fn between(alloc: Global, lower: &Range, upper: &Range) -> Result<Plan, AllocError>
    ensures { IfOk result (λ p. (ix : List Kinds) (e : List KeyedAttribute)
        → holds ix e p ≡ is_between ix lower.now upper.now e) }
{
    let from = copy_bound(alloc, &lower.from)?;
    let upto = copy_bound(alloc, &upper.upto)?;
    let mut parts = Vec::new(alloc);
    parts.push(Plan::Range(Range {
        type_id: lower.type_id,
        from,
        upto,
    }))?;
    parts.push(Plan::Posting(Posting::Several(lower.type_id)))?;
    Ok(Plan::Union(parts))
}

/// Where a plan is a range with a lower bound alone, and there is one with an upper bound on its type: what
/// lies between.
fn joined_at(alloc: Global, plans: &[Plan], i: usize) -> Result<Option<Plan>, AllocError>
    requires { i < length plans.now }
    ensures { IfOk result (λ o. IfSome o (IsImplied plans.now)) }
{
    let Some(lower) = as_range(&plans[i]) else {
        return Ok(None);
    };
    if lower.from.is_none() || lower.upto.is_some() {
        return Ok(None);
    }
    match upper_bound(plans, lower.type_id) {
        Some(upper) => {
            let plan = between(alloc, lower, upper)?;
            Ok(Some(plan))
        }
        None => Ok(None),
    }
}

/// Adds what lies between the lower bound of one of the plans and an upper bound on its type, where there are both.
fn push_joined(alloc: Global, plans: &mut Vec<Plan>, i: usize) -> Result<(), AllocError>
    requires { i < length plans.old.items }
    ensures same { OnOk result ((ix : List Kinds) (e : List KeyedAttribute)
        → list_all (holds ix e) plans.new.items ≡ list_all (holds ix e) plans.old.items) }
    ensures longer { OnOk result (length plans.old.items ≤ length plans.new.items) }
{
    match joined_at(alloc, plans, i)? {
        Some(plan) => {
            plans.push(plan)?;
            Ok(())
        }
        None => Ok(()),
    }
}

/// How many of an `and`'s parts are looked at for a lower bound, since for each all parts are looked at for
/// an upper one.
const MOST_LOWER: usize = 16;

/// Adds what lies between two bounds on one type to the plans of an `and`'s parts: they all hold of an entry
/// just where they did. Of several upper bounds on a type the first is taken.
pub fn join_bounds(alloc: Global, plans: &mut Vec<Plan>) -> Result<(), AllocError>
    ensures { OnOk result ((ix : List Kinds) (e : List KeyedAttribute)
        → list_all (holds ix e) plans.new.items ≡ list_all (holds ix e) plans.old.items) }
{
    let first = plans.len().min(MOST_LOWER);
    for i in 0..first {
        push_joined(alloc, plans, i)?;
    }
    Ok(())
}
