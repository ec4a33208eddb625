// Runs plans: takes each candidate and keeps those that are found.

ghost use Rattle.std.specs.Prelude.{◌≡◌, ◌+◌, ◌^◌, ◌<◌, ◌≤◌, [], ◌∷◌, filter, length, nat_le, IfOk, MatchOption};
ghost use Rattle.search_plans.specs.Runs.{AreGuides, left_open, true_set};

use crate::gathering::{Drawn, draw_sided};
use crate::plan::Sided;
use crate::reading_ahead::read_lists;
use crate::resolved::{ResolvedSides, resolve_sided};
use crate::scope::Scope;
use crate::stream::Stream;
use crate::telling::{Criteria, is_found};
use crate::values::Values;
use dir_index::PostingLists;
use std::alloc::{AllocError, Global};
use std::marker::Model;

/// A run under way: the numbers that it still has to give, and how many values it has asked for.
#[derive(Drop)]
pub struct PlanRun<'a, K: PostingLists, V: Values> {
    // prover: contracts speak of the plans that the run was started with
    sided: &'a Sided,
    /// The same plans, resolved: their posting lists go forward with the candidates.
    sides: ResolvedSides<'a>,
    criteria: Criteria<'a, K>,
    stream: Stream<'a>,
    values: V,
    tests: u64,
    /// What was read ahead: nobody asks for it, but without it the compiler would leave these reads out.
    read: u64,
}

impl<'a, K: PostingLists, V: Values> Model for PlanRun<'a, K, V> {
    ghost use Rattle.search_plans.specs.Sets.{is_in};
    ghost use Rattle.search_plans.specs.Runs.{Progress, progress_of};
    ghost use Rattle.search_plans.specs.private.Resolved.{is_in_resolved};
    ghost use Rattle.search_plans.specs.private.Runs.{IsUnderWay, AreInside, AreSameWithin};

    ghost Value = { Progress };

    ghost view = { λ r. progress_of (is_in (K.lists r.criteria.kept.now) r.criteria.scope.now r.sided.now.must)
        (is_in (K.lists r.criteria.kept.now) r.criteria.scope.now r.sided.now.may) (V.value_at r.values)
        r.criteria.scope.now r.stream
        r.tests (V.looks r.values) };

    ghost invariant = { λ r. IsUnderWay (is_in (K.lists r.criteria.kept.now) r.criteria.scope.now r.sided.now.must)
        (is_in (K.lists r.criteria.kept.now) r.criteria.scope.now r.sided.now.may) (V.value_at r.values)
        r.criteria.scope.now r.stream
        r.tests (V.looks r.values) × AreInside r.criteria.is_inside r.stream r.criteria.scope.now
        × AreSameWithin (is_in_resolved (K.lists r.criteria.kept.now) r.sides.must)
        (is_in (K.lists r.criteria.kept.now) r.criteria.scope.now r.sided.now.must) r.criteria.scope.now r.stream
        × AreSameWithin (is_in_resolved (K.lists r.criteria.kept.now) r.sides.may)
        (is_in (K.lists r.criteria.kept.now) r.criteria.scope.now r.sided.now.may) r.criteria.scope.now r.stream };
}

/// Where it is known that all that is drawn will be found, tells of the numbers that come next in several walks; not
/// where a list of them finds no memory.
fn expect_heads<V: Values>(alloc: Global, is_sure: bool, stream: &Stream, values: &mut V)
    ensures { values.new ≡ values.old }
{
    if !is_sure || !stream.is_of_several() {
        return;
    }
    if let Ok(heads) = stream.heads(alloc) {
        values.expect(&heads);
    }
}

/// Starts a run of two plans that bound the entries whose value is True, within a scope. It looks up the posting lists
/// that the plans name, and takes the memory for the candidates and for the resolved plans; the run takes none.
pub fn start<'a, K: PostingLists, V: Values + Drop>(
    alloc: Global,
    sided: &'a Sided,
    kept: &'a K,
    scope: &'a Scope<'a>,
    values: V,
) -> Result<PlanRun<'a, K, V>, AllocError>
    requires guides { AreGuides (K.lists kept.now) sided.now (V.value_at values) scope.now }
    requires room { V.looks values + length scope.now < 2 ^ 64 }
    ensures numbers { IfOk result (λ r. r.to_come ≡ true_set (V.value_at values) scope.now) }
    ensures undecided { IfOk result (λ r. r.open_numbers ≡ left_open (K.lists kept.now) sided.now scope.now) }
    ensures none_yet { IfOk result (λ r. r.tests ≡ 0) }
    ensures looks { IfOk result (λ r. r.looks ≡ V.looks values) }
{
    scope.rises();
    let mut values = values;
    let drawn = draw_sided(alloc, sided, kept, scope)?;
    let Drawn { stream, known } = drawn;
    expect_heads(alloc, known.is_sure, &stream, &mut values);
    let sides = resolve_sided(alloc, sided, kept, known.is_sure)?;
    let read = read_lists(&sides.may);
    Ok(PlanRun {
        sided,
        sides,
        criteria: Criteria {
            kept,
            scope,
            is_inside: known.is_inside,
        },
        stream,
        values,
        tests: 0,
        read,
    })
}

impl<'a, K: PostingLists, V: Values> PlanRun<'a, K, V> {
    /// The next number of the scope whose value is True, in order. It takes no memory.
    pub fn next(&mut self) -> Option<u64>
        ensures gives { MatchOption result ((self.old.to_come ≡ []) × (self.new.to_come ≡ []))
            (λ n. self.old.to_come ≡ n ∷ self.new.to_come) }
        ensures same { self.new.open_numbers ≡ self.old.open_numbers }
        ensures few { self.new.tests ≤ length self.new.open_numbers }
        // Those left open up to the number that is given were asked for, and no others; all of them, where none is
        // given.
        ensures asked { MatchOption result (self.new.tests ≡ length self.new.open_numbers)
            (λ m. self.new.tests ≡ length (filter (λ n. nat_le n m) self.new.open_numbers)) }
        ensures counted { self.new.looks + self.old.tests ≡ self.old.looks + self.new.tests }
    {
        while let Some(number) = self.stream.next() {
            if is_found(
                &mut self.sides,
                &self.criteria,
                &mut self.values,
                &mut self.tests,
                number,
            ) {
                return Some(number);
            }
        }
        None
    }

    /// How many values were asked for.
    pub fn tests(&self) -> u64
        ensures { result ≡ self.now.tests }
    {
        self.tests
    }

    /// The values, as the run leaves them.
    pub fn into_values(self) -> V
        ensures { V.looks result ≡ self.entry.looks }
    {
        let PlanRun {
            sided: _,
            sides: _,
            criteria: _,
            stream: _,
            values,
            tests: _,
            read: _,
        } = self;
        values
    }
}

/// What a run found.
#[derive(Drop)]
pub struct Ran<V> {
    /// The numbers of the scope whose value is True, in order.
    pub numbers: Vec<u64>,
    /// How many values were asked for.
    pub tests: u64,
    /// The values, as the run left them.
    pub values: V,
}

/// A whole run: its start, and all its numbers.
pub fn run<K: PostingLists, V: Values + Drop>(
    alloc: Global,
    sided: &Sided,
    kept: &K,
    scope: &Scope,
    values: V,
) -> Result<Ran<V>, AllocError>
    requires guides { AreGuides (K.lists kept.now) sided.now (V.value_at values) scope.now }
    requires room { V.looks values + length scope.now < 2 ^ 64 }
    ensures numbers { IfOk result (λ r. r.numbers.items ≡ true_set (V.value_at values) scope.now) }
    ensures few { IfOk result (λ r. r.tests ≤ length (left_open (K.lists kept.now) sided.now scope.now)) }
    ensures asked { IfOk result (λ r. r.tests ≡ length (left_open (K.lists kept.now) sided.now scope.now)) }
    ensures counted { IfOk result (λ r. V.looks r.values ≡ V.looks values + r.tests) }
{
    let mut running = start(alloc, sided, kept, scope, values)?;
    let mut numbers = Vec::new(alloc);
    while let Some(number) = running.next() {
        numbers.push(number)?;
    }
    let tests = running.tests();
    Ok(Ran {
        numbers,
        tests,
        values: running.into_values(),
    })
}
