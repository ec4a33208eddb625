// Compiles a bound filter into plans, by recursion.

ghost use Rattle.std.specs.Prelude.{◌≡◌, true, List, IfOk, Vec};
ghost use Rattle.std.specs.Global.{Global};
ghost use Rattle.ldap_eval.specs.ldap_match.declared.truth.Truth.TheVariants.{True};
ghost use Rattle.ldap_eval.specs.dir_entry.Entry.{KeyedAttribute};
ghost use Rattle.ldap_eval.specs.dir_entry.ldap_dn.Names.{RdnModel};
ghost use Rattle.ldap_eval.specs.Bound.{bound_value};
ghost use Rattle.ldap_eval.specs.declared.bound.BoundFilter.{BoundFilter};
ghost use Rattle.search_plans.specs.Sets.{holds};
ghost use Rattle.ldap_eval.specs.dir_entry.ldap_schema.Schema.{SchemaModel};
ghost use Rattle.ldap_eval.specs.ldap_filter.Tree.{Tree};
ghost use Rattle.ldap_eval.specs.Bound.{IsBoundTo};
ghost use Rattle.ldap_eval.specs.Made.{IsMadeOf};
ghost use Rattle.search_plans.specs.Bounds.{is_decided, Bounds, BoundsSets, DecidedAreTrue, GuidesRuns};
ghost use Rattle.search_plans.specs.Planned.{ArePlansFor};
ghost use Rattle.search_plans.specs.OctetRuns.{has_runs_for};
ghost use Rattle.search_plans.specs.private.Sides.{IsSide, IsEvery, IsAny, EachSide};

use crate::agreeing::sets_are_of_entries;
use crate::joining::join_bounds;
use crate::leaves::leaf_side;
use crate::plan::{Plan, Sided};
use dir_index::Indexes;
use ldap_eval::{BoundFilter, tests_are_items};
use std::alloc::{AllocError, Global};

/// The plans that bound where the filter has the wanted value: true, or false.
#[cycle(side)]
fn side(
    alloc: Global,
    filter: &BoundFilter,
    wanted: bool,
    indexes: &Indexes,
) -> Result<Sided, AllocError>
    ensures { IfOk result (λ s. IsSide indexes.now wanted filter.now s.must s.may) }
{
    match filter {
        BoundFilter::And(filters) => {
            if wanted {
                every(alloc, filters, wanted, indexes)
            } else {
                any(alloc, filters, wanted, indexes)
            }
        }
        BoundFilter::Or(filters) => {
            if wanted {
                any(alloc, filters, wanted, indexes)
            } else {
                every(alloc, filters, wanted, indexes)
            }
        }
        BoundFilter::Not(inner) => side(alloc, inner, !wanted, indexes),
        BoundFilter::Undefined => Ok(Sided {
            must: Plan::Empty,
            may: Plan::Empty,
        }),
        BoundFilter::Leaf(leaf) => leaf_side(alloc, leaf, wanted, indexes),
        BoundFilter::Match(_) => Ok(Sided {
            must: Plan::Empty,
            may: Plan::Scope,
        }),
    }
}

/// The plans of where every filter of a row has the wanted value. Among what may be stands what lies between
/// two bounds on one type, since fewer candidates are drawn from it than from either bound.
#[cycle(side)]
fn every(
    alloc: Global,
    filters: &[BoundFilter],
    wanted: bool,
    indexes: &Indexes,
) -> Result<Sided, AllocError>
    ensures { IfOk result (λ s. IsEvery indexes.now wanted filters.now s.must s.may) }
{
    let (musts, mut mays) = sides(alloc, filters, wanted, indexes)?;
    join_bounds(alloc, &mut mays)?;
    Ok(Sided {
        must: Plan::Inter(musts),
        may: Plan::Inter(mays),
    })
}

/// The plans of where some filter of a row has the wanted value.
#[cycle(side)]
fn any(
    alloc: Global,
    filters: &[BoundFilter],
    wanted: bool,
    indexes: &Indexes,
) -> Result<Sided, AllocError>
    ensures { IfOk result (λ s. IsAny indexes.now wanted filters.now s.must s.may) }
{
    let (musts, mays) = sides(alloc, filters, wanted, indexes)?;
    Ok(Sided {
        must: Plan::Union(musts),
        may: Plan::Union(mays),
    })
}

/// The plans of each filter of a row.
#[cycle(side)]
fn sides(
    alloc: Global,
    filters: &[BoundFilter],
    wanted: bool,
    indexes: &Indexes,
) -> Result<(Vec<Plan>, Vec<Plan>), AllocError>
    ensures { IfOk result (λ x. EachSide indexes.now wanted filters.now x.0.items x.1.items) }
{
    let mut musts = Vec::with_capacity(alloc, filters.len())?;
    let mut mays = Vec::with_capacity(alloc, filters.len())?;
    for filter in filters {
        let sided = side(alloc, filter, wanted, indexes)?;
        musts.push(sided.must)?;
        mays.push(sided.may)?;
    }
    Ok((musts, mays))
}

/// The plans that bound where the filter is true, from both sides. It takes the memory of the plans, and what it
/// gives borrows nothing.
pub fn compile(alloc: Global, filter: &BoundFilter, indexes: &Indexes) -> Result<Sided, AllocError>
    // Over the posting lists of any entries, and any scope: must lies in the true set, and the true set lies in may.
    // Where the indexes decide the filter, they are the same.
    ensures sets { IfOk result (λ s. (n : List RdnModel) → BoundsSets indexes.now (λ e. bound_value n e filter.now) True
        (is_decided indexes.now filter.now) s.must s.may) }
    // So the plans guide a run for the filter's value.
    ensures guides { IfOk result (λ s. (n : List RdnModel) → GuidesRuns indexes.now (λ e. bound_value n e filter.now)
        s.must s.may) }
    // The same of each entry by itself, whatever its name.
    ensures entries { IfOk result (λ s. (n : List RdnModel) → Bounds indexes.now (λ e. bound_value n e filter.now) True
        (is_decided indexes.now filter.now) s.must s.may) }
    // What may be true of an `and` is true of each part that the indexes decide.
    ensures parts { IfOk result (λ s. (v : Vec BoundFilter Global) → filter.now ≡ BoundFilter.And v
        → (n : List RdnModel) (e : List KeyedAttribute) → holds indexes.now e s.may ≡ true →
        DecidedAreTrue indexes.now n e v.items) }
    // What may be true holds each run of three octets that the filter's substrings items ask for.
    ensures runs { IfOk result (λ s. (e : List KeyedAttribute) → holds indexes.now e s.may ≡ true
        → has_runs_for indexes.now e filter.now ≡ true) }
    // By the filter that it is made of, and its value on entries: must lies in the true set, and the true set
    // in may; where the schema and the index choice decide the filter, both are its true set; on what may be of an
    // `and`, each part that they decide is true; and what may be has values that hold each run that its substrings
    // items ask for.
    ensures filters { IfOk result (λ s. (m : SchemaModel) (t : Tree) → IsBoundTo m t filter.now →
        IsMadeOf m t filter.now
        → ArePlansFor m indexes.now t s.must s.may) }
{
    sets_are_of_entries();
    tests_are_items();
    match filter {
        BoundFilter::And(filters) => every(alloc, filters, true, indexes),
        _ => side(alloc, filter, true, indexes),
    }
}
