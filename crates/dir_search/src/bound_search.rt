//! A search whose filter is bound: the numbers in scope of the entries whose filter value is True are drawn from plans,
//! in order, up to the size limit.
ghost use Rattle.std.specs.Prelude.{◌≡◌, ℕ, List, [], true, false, IfOk};
ghost use Rattle.indexed_tree.specs.ldap_schema.Schema.{SchemaModel};
ghost use Rattle.ldap_filter.specs.Tree.{Tree as FilterTree};
ghost use Rattle.ldap_filter.specs.View.{view as filter_view};
ghost use Rattle.indexed_tree.specs.ldap_dn.Names.{rdns};
ghost use Rattle.ldap_eval.specs.Bound.{IsBoundTo};
ghost use Rattle.ldap_eval.specs.Made.{IsMadeOf};
ghost use Rattle.indexed_tree.specs.dir_index.Postings.{has_number};
ghost use Rattle.indexed_tree.specs.dir_tree.Directory.{name_eq, begins, entry_at};
ghost use Rattle.indexed_tree.specs.Listed.{lists_of};
ghost use Rattle.indexed_tree.specs.Stored.{directory};
ghost use Rattle.search_plans.specs.Sets.{is_in};
ghost use Rattle.search_plans.specs.Planned.{ArePlansFor};
ghost use Rattle.search_plans.specs.Runs.{AreGuides, is_open};
ghost use Rattle.dir_search.specs.Answer.{stands};
ghost use Rattle.dir_search.specs.Looks.{value_in};
ghost use Rattle.dir_search.specs.private.Looks.{AreNumbersOf, IsBoundOn, LeavesFew, leaves_open_on};
ghost use Rattle.dir_search.specs.Scopes.{is_right_under, is_in_scope};
ghost use Rattle.dir_search.specs.private.View.{shows_of};
ghost use Rattle.std.specs.Arc.{arc_value};

use crate::asked_types::types_asked;
use crate::scoping::{is_unnamed, numbers_right_under, numbers_within};
use crate::showing::show_found;
use crate::values::Evaluated;
use indexed_tree::{
    IndexedTree, NumberSet, Rdn, Schema, Scope, SearchAnswer, SearchRequest, Shows, TypesAhead,
    Wanted,
};
use ldap_eval::BoundFilter;
use search_plans::{Scope as NumberScope, Sided, compile, sets_are_of_entries, start};
use std::alloc::{AllocError, Global};
use std::sync::Arc;

/// The plans that bound where a filter is True, over the posting lists of a tree's entries.
fn guide(alloc: Global, indexed: &IndexedTree, bound: &BoundFilter) -> Result<Sided, AllocError>
    ensures guides { IfOk result (λ s. (ks : List ℕ) → AreNumbersOf ks indexed.now.tree.entries
        → AreGuides (lists_of indexed.now) s (value_in bound.now indexed.now.tree.entries) ks) }
    ensures few { IfOk result (λ s. (ks : List ℕ) → AreNumbersOf ks indexed.now.tree.entries
        → LeavesFew (is_open (is_in (lists_of indexed.now) ks s.must) (is_in (lists_of indexed.now) ks s.may))
        indexed.now.indexes bound.now indexed.now.tree.entries ks) }
    ensures plans { IfOk result (λ s. (m : SchemaModel) (t : FilterTree) → IsBoundTo m t bound.now →
        IsMadeOf m t bound.now
        → ArePlansFor m indexed.now.indexes t s.must s.may) }
    ensures told { IfOk result (λ s. (ks : List ℕ) → AreNumbersOf ks indexed.now.tree.entries → (n : ℕ) →
        has_number n ks ≡ true
        → is_open (is_in (lists_of indexed.now) ks s.must) (is_in (lists_of indexed.now) ks s.may) n
        ≡ leaves_open_on indexed.now.indexes s.must s.may (entry_at n indexed.now.tree.entries)) }
{
    sets_are_of_entries();
    indexed.tree().is_directory();
    let sided = compile(alloc, bound, indexed.indexes())?;
    Ok(sided)
}

/// A search at a base that stands, its filter bound.
pub struct BoundSearch<'a> {
    pub alloc: Global,
    pub schema: &'a Schema,
    pub indexed: &'a IndexedTree,
    /// It is True of an entry of the tree just where the request's filter is.
    pub bound: &'a BoundFilter,
    pub base: &'a [Rdn],
    pub request: &'a SearchRequest,
    pub shows: &'a Arc<Shows>,
    ghost bound_on: { IsBoundOn schema.now (filter_view request.now.filter) bound.now indexed.now.tree.entries },
    ghost base_stands: { stands (directory schema.now indexed.now.tree) base.now ≡ true },
    ghost shown_as: { arc_value shows.now ≡ shows_of schema.now request.now },
}

// Not derived: see "What the gate takes" in docs/ARCHITECTURE.md.
impl<'a> Drop for BoundSearch<'a> {
    fn drop(self) {
        let BoundSearch {
            alloc: _,
            schema: _,
            indexed: _,
            bound: _,
            base: _,
            request: _,
            shows: _,
        } = self;
    }
}

impl BoundSearch<'_> {
    ghost use Rattle.dir_search.specs.private.Among.{FindsOf, FindsWhere};

    /// What is shown of the entries of these numbers that match, up to the limit; 0 is no limit. The numbers come from
    /// the posting lists; the filter is evaluated only where its plans leave open whether it is True.
    fn among(&self, numbers: &NumberSet) -> Result<SearchAnswer, AllocError>
        requires { AreNumbersOf numbers.now self.now.indexed.now.tree.entries }
        ensures { IfOk result (FindsOf self.now numbers.now) }
    {
        let tree = self.indexed.tree();
        tree.is_directory();
        let sided = guide(self.alloc, self.indexed, self.bound)?;
        let values = Evaluated {
            visit: tree.visit(Wanted::Keys(types_asked(self.bound, TypesAhead::new()))),
            bound: self.bound,
            looks: 0,
        };
        let scope = NumberScope::of_set(numbers);
        // prover: the looks to come are counted in 64 bits
        let _ = scope.len();
        let running = start(self.alloc, &sided, self.indexed, &scope, values)?;
        show_found(
            self.alloc,
            self.schema,
            tree,
            self.request,
            self.shows,
            running,
        )
    }

    /// The search of one name's entry; of none, where the name has none.
    fn entry(&self, name: &[Rdn]) -> Result<SearchAnswer, AllocError>
        ensures { IfOk result (FindsWhere self.now (name_eq (rdns name.now))) }
    {
        let tree = self.indexed.tree();
        tree.is_single();
        match tree.find(name) {
            Some(number) => self.among(&NumberSet::of_one(number)),
            None => self.among(&NumberSet::new()),
        }
    }

    /// The search of the root's entry.
    fn root(&self) -> Result<SearchAnswer, AllocError>
        ensures { IfOk result (FindsWhere self.now (name_eq (rdns self.now.indexed.now.tree.suffix))) }
    {
        let root = self.indexed.tree().suffix();
        self.entry(root.rdns())
    }

    /// The search of the entries right under the base; right under the empty name stands the root.
    fn level(&self) -> Result<SearchAnswer, AllocError>
        ensures { IfOk result (FindsWhere self.now (is_right_under (rdns self.now.indexed.now.tree.suffix)
            (rdns self.now.base.now))) }
    {
        if is_unnamed(self.base) {
            return self.root();
        }
        let none = NumberSet::new();
        let numbers = numbers_right_under(self.indexed.tree(), &none, self.base);
        self.among(numbers)
    }

    /// The search of the entries at or below the base; below the empty name stand all.
    fn subtree(&self) -> Result<SearchAnswer, AllocError>
        ensures { IfOk result (FindsWhere self.now (begins (rdns self.now.base.now))) }
    {
        let none = NumberSet::new();
        let numbers = numbers_within(self.indexed.tree(), &none, self.base);
        self.among(numbers)
    }

    /// The search of no entry.
    fn nothing(&self) -> Result<SearchAnswer, AllocError>
        ensures { IfOk result (FindsOf self.now []) }
    {
        let none = NumberSet::new();
        self.among(&none)
    }

    /// The search of the entries in scope.
    pub fn in_scope(&self) -> Result<SearchAnswer, AllocError>
        ensures { IfOk result (FindsWhere self.now
            (is_in_scope (rdns self.now.indexed.now.tree.suffix) self.now.request.now.scope (rdns self.now.base.now))) }
    {
        match self.request.scope {
            Scope::BaseObject => self.entry(self.base),
            Scope::SingleLevel => self.level(),
            Scope::WholeSubtree => self.subtree(),
            Scope::SubordinateSubtree => self.nothing(),
        }
    }
}
