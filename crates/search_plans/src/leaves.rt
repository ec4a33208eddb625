// Makes the two plans of one leaf: a test on the attributes of one type with indexes.

ghost use Rattle.std.specs.Prelude.{◌≡◌, true, false, not, List, IfOk};
ghost use Rattle.ldap_eval.specs.ldap_match.Truth.{truth_of};
ghost use Rattle.ldap_eval.specs.ldap_match.declared.truth.Truth.TheVariants.{True, False};
ghost use Rattle.ldap_eval.specs.dir_entry.Entry.{KeyedAttribute};
ghost use Rattle.dir_index.specs.index_choice.declared.kinds.Kinds.{Kinds};
ghost use Rattle.dir_index.specs.index_choice.Choice.{kinds_of};
ghost use Rattle.ldap_eval.specs.Bound.{leaf_value};
ghost use Rattle.search_plans.specs.Sets.{holds};
ghost use Rattle.search_plans.specs.Bounds.{is_test_decided, Bounds};
ghost use Rattle.search_plans.specs.OctetRuns.{has_runs, has_runs_of_test};

use crate::octet_runs::run_postings;
use crate::plan::{Plan, Sided};
use dir_index::{Indexes, Posting, Range};
use ldap_eval::{Key, Leaf, PartKeys, Test, TypeId};
use std::alloc::{AllocError, Global};

/// Whether an index tells exactly on which entries the test is true, and on which it is false.
fn is_listed(leaf: &Leaf, indexes: &Indexes) -> bool
    ensures { result ≡ is_test_decided indexes.now leaf.now.type_id leaf.now.test }
{
    let kinds = indexes.kinds(leaf.type_id);
    match &leaf.test {
        Test::Present => kinds.presence,
        Test::Unknown => kinds.presence,
        Test::Equal(_) => kinds.equality || kinds.ordering,
        Test::AtLeast(_) => kinds.ordering,
        Test::AtMost(_) => kinds.ordering,
        Test::Parts(_) => false,
    }
}

/// The plan of exactly the entries on which the leaf is true, where an index tells them.
fn listed(alloc: Global, leaf: &Leaf) -> Result<Plan, AllocError>
    ensures { IfOk result (λ p. (ix : List Kinds) → is_test_decided ix leaf.now.type_id leaf.now.test ≡ true
        → Bounds ix (λ e. leaf_value e leaf.now) True true p p) }
{
    match &leaf.test {
        Test::Present => Ok(Plan::Posting(Posting::Present(leaf.type_id))),
        Test::Equal(key) => Ok(Plan::Posting(Posting::Equal(leaf.type_id, key.copy(alloc)?))),
        Test::AtLeast(key) => Ok(Plan::Range(Range {
            type_id: leaf.type_id,
            from: Some(key.copy(alloc)?),
            upto: None,
        })),
        Test::AtMost(key) => Ok(Plan::Range(Range {
            type_id: leaf.type_id,
            from: None,
            upto: Some(key.copy(alloc)?),
        })),
        Test::Unknown => Ok(Plan::Empty),
        Test::Parts(_) => Ok(Plan::Empty),
    }
}

/// The entries with an attribute of the leaf's type, where the type has a presence index, else the scope.
fn possible_by_type(leaf: &Leaf, indexes: &Indexes) -> Plan
    ensures { Bounds indexes.now (λ e. leaf_value e leaf.now) True false Plan.Empty result }
{
    if indexes.kinds(leaf.type_id).presence {
        Plan::Posting(Posting::Present(leaf.type_id))
    } else {
        Plan::Scope
    }
}

/// The entries that hold each run of three octets of the parts.
fn possible_by_runs(alloc: Global, type_id: TypeId, parts: &PartKeys) -> Result<Plan, AllocError>
    ensures { IfOk result (λ p. (ix : List Kinds) → (kinds_of ix type_id).substrings ≡ true → (e : List KeyedAttribute)
        → holds ix e p ≡ has_runs type_id parts.now e) }
{
    let plans = run_postings(alloc, type_id, parts)?;
    Ok(Plan::Inter(plans))
}

/// A plan that has at least the entries on which the leaf is true. By a substrings index, it has none that lacks a
/// run of the parts.
fn possible(alloc: Global, leaf: &Leaf, indexes: &Indexes) -> Result<Plan, AllocError>
    ensures bounds { IfOk result (λ p. Bounds indexes.now (λ e. leaf_value e leaf.now) True false Plan.Empty p) }
    ensures runs { IfOk result (λ p. (e : List KeyedAttribute) → holds indexes.now e p ≡ true
        → has_runs_of_test indexes.now leaf.now.type_id leaf.now.test e ≡ true) }
{
    let kinds = indexes.kinds(leaf.type_id);
    match &leaf.test {
        Test::Unknown => Ok(Plan::Empty),
        Test::Parts(parts) => {
            if kinds.substrings {
                possible_by_runs(alloc, leaf.type_id, parts)
            } else {
                Ok(possible_by_type(leaf, indexes))
            }
        }
        _ => Ok(possible_by_type(leaf, indexes)),
    }
}

/// The plans that bound where a leaf is true.
fn leaf_true(alloc: Global, leaf: &Leaf, indexes: &Indexes) -> Result<Sided, AllocError>
    ensures bounds { IfOk result (λ s. Bounds indexes.now (λ e. leaf_value e leaf.now) True
        (is_test_decided indexes.now leaf.now.type_id leaf.now.test) s.must s.may) }
    ensures runs { IfOk result (λ s. (e : List KeyedAttribute) → holds indexes.now e s.may ≡ true
        → has_runs_of_test indexes.now leaf.now.type_id leaf.now.test e ≡ true) }
{
    if is_listed(leaf, indexes) {
        let must = listed(alloc, leaf)?;
        let may = listed(alloc, leaf)?;
        Ok(Sided { must, may })
    } else {
        let must = Plan::Empty;
        let may = possible(alloc, leaf, indexes)?;
        Ok(Sided { must, may })
    }
}

/// All in scope but those of the plan.
fn without(alloc: Global, plan: Plan) -> Result<Plan, AllocError>
    ensures { IfOk result (λ p. (ix : List Kinds) (e : List KeyedAttribute) → holds ix e p ≡ not (holds ix e plan)) }
{
    Ok(Plan::Minus(Box::new(alloc, Plan::Scope)?, Box::new(alloc, plan)?))
}

/// The plans that bound where a leaf is false whose test nobody can tell: where the type isn't there.
fn unknown_false(alloc: Global, type_id: TypeId, indexes: &Indexes) -> Result<Sided, AllocError>
    ensures { IfOk result (λ s. Bounds indexes.now
        (λ e. leaf_value e (record { type_id = type_id; test = Test.Unknown })) False
        (kinds_of indexes.now type_id).presence s.must s.may) }
{
    if indexes.kinds(type_id).presence {
        let must = without(alloc, Plan::Posting(Posting::Present(type_id)))?;
        let may = without(alloc, Plan::Posting(Posting::Present(type_id)))?;
        Ok(Sided { must, may })
    } else {
        Ok(Sided {
            must: Plan::Empty,
            may: Plan::Scope,
        })
    }
}

/// The plans that bound where a leaf is false that is true or false on every entry: what bounds where it is true,
/// the other way round.
fn turned(alloc: Global, sided: Sided) -> Result<Sided, AllocError>
    ensures must { IfOk result (λ s. (ix : List Kinds) (e : List KeyedAttribute)
        → holds ix e s.must ≡ not (holds ix e sided.may)) }
    ensures may { IfOk result (λ s. (ix : List Kinds) (e : List KeyedAttribute)
        → holds ix e s.may ≡ not (holds ix e sided.must)) }
{
    let Sided { must, may } = sided;
    let outside_may = without(alloc, may)?;
    let outside_must = without(alloc, must)?;
    Ok(Sided {
        must: outside_may,
        may: outside_must,
    })
}

/// The plans that bound where a leaf is true, or where it is false.
pub fn leaf_side(
    alloc: Global,
    leaf: &Leaf,
    wanted: bool,
    indexes: &Indexes,
) -> Result<Sided, AllocError>
    ensures bounds { IfOk result (λ s. Bounds indexes.now (λ e. leaf_value e leaf.now) (truth_of wanted)
        (is_test_decided indexes.now leaf.now.type_id leaf.now.test) s.must s.may) }
    ensures runs { IfOk result (λ s. wanted ≡ true → (e : List KeyedAttribute) → holds indexes.now e s.may ≡ true
        → has_runs_of_test indexes.now leaf.now.type_id leaf.now.test e ≡ true) }
{
    if wanted {
        return leaf_true(alloc, leaf, indexes);
    }
    match &leaf.test {
        Test::Unknown => unknown_false(alloc, leaf.type_id, indexes),
        _ => {
            let sided = leaf_true(alloc, leaf, indexes)?;
            turned(alloc, sided)
        }
    }
}
