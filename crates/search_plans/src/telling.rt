// Decides one candidate of a run, and takes the plans forward to it.

ghost use Rattle.std.specs.Prelude.{◌≡◌, ℕ, ◌+◌, ◌^◌, ◌<◌, true, cond};
ghost use Rattle.dir_index.specs.Postings.{has_number};
ghost use Rattle.search_plans.specs.Runs.{is_wanted};
ghost use Rattle.search_plans.specs.private.Resolved.{is_in_resolved};
ghost use Rattle.search_plans.specs.private.Runs.{is_left_open, IsGuided};
ghost use Rattle.search_plans.specs.private.Sets.{AreSameFrom};

use crate::resolved::{ResolvedSides, has_inside};
use crate::scope::Scope;
use crate::values::Values;
use dir_index::{PostingLists, Truth};

/// What decides about the candidates of a run, besides its plans: what is kept, and the scope. It stays the same for
/// all of them.
pub struct Criteria<'a, K: PostingLists> {
    pub kept: &'a K,
    pub scope: &'a Scope<'a>,
    /// Whether all candidates are known to be in scope.
    pub is_inside: bool,
}

// Not derived: see "What the gate takes" in docs/ARCHITECTURE.md.
impl<'a, K: PostingLists> Drop for Criteria<'a, K> {
    fn drop(self) {
        let Criteria {
            kept: _,
            scope: _,
            is_inside: _,
        } = self;
    }
}

/// Whether the entry of a candidate is to be given: it is in scope, and its value is True. The plans are asked first,
/// since most candidates of an intersection fail there, and the scope is the largest set. The value is asked for only
/// where the plans leave it open. Whether it must be True is asked before whether it may: a filter that the indexes
/// decide then is asked about once, and one that they don't has little that must be. Of this candidate and of those
/// above it the plans say afterwards what they said.
pub fn is_found<K: PostingLists, V: Values>(
    sides: &mut ResolvedSides,
    criteria: &Criteria<K>,
    values: &mut V,
    tests: &mut u64,
    number: u64,
) -> bool
    requires inside { criteria.now.is_inside ≡ true → has_number number criteria.now.scope.now ≡ true }
    requires guides { has_number number criteria.now.scope.now ≡ true
        → IsGuided (is_in_resolved (K.lists criteria.now.kept.now) sides.old.must number)
        (V.value_at values.old number) (is_in_resolved (K.lists criteria.now.kept.now) sides.old.may number) }
    requires room { is_left_open (K.lists criteria.now.kept.now) sides.old criteria.now.scope.now number ≡ true
        → (V.looks values.old + 1 < 2 ^ 64) × (tests.old + 1 < 2 ^ 64) }
    ensures found { result ≡ is_wanted (V.value_at values.old) criteria.now.scope.now number }
    ensures tests { tests.new ≡ tests.old
        + cond (is_left_open (K.lists criteria.now.kept.now) sides.old criteria.now.scope.now number) 1 0 }
    ensures counted { V.looks values.new ≡ V.looks values.old
        + cond (is_left_open (K.lists criteria.now.kept.now) sides.old criteria.now.scope.now number) 1 0 }
    ensures same { (n : ℕ) → V.value_at values.new n ≡ V.value_at values.old n }
    ensures must { AreSameFrom number (is_in_resolved (K.lists criteria.now.kept.now) sides.new.must)
        (is_in_resolved (K.lists criteria.now.kept.now) sides.old.must) }
    ensures may { AreSameFrom number (is_in_resolved (K.lists criteria.now.kept.now) sides.new.may)
        (is_in_resolved (K.lists criteria.now.kept.now) sides.old.may) }
{
    let must = has_inside(&mut sides.must, criteria.kept, number);
    if !must && !has_inside(&mut sides.may, criteria.kept, number) {
        return false;
    }
    if !criteria.is_inside && !criteria.scope.has(number) {
        return false;
    }
    if must {
        return true;
    }
    *tests += 1;
    values.value(number) == Truth::True
}
