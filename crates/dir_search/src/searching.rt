//! The search itself: what a request's base stands for, the root DSE, entries or nothing, and the answer.
ghost use Rattle.std.specs.Prelude.{◌≡◌, ◌≤◌, ◌&&◌, length, true, IfOk};
ghost use Rattle.indexed_tree.specs.ldap_schema.Schema.{SchemaModel};
ghost use Rattle.ldap_filter.specs.Tree.{Tree as FilterTree};
ghost use Rattle.indexed_tree.specs.ldap_dn.Texts.{name_of_text};
ghost use Rattle.ldap_eval.specs.Bound.{IsBoundTo};
ghost use Rattle.ldap_eval.specs.Value.{filter_value};
ghost use Rattle.indexed_tree.specs.directory_api.ldap_msg.View.{search_view};
ghost use Rattle.indexed_tree.specs.dir_entry.Entry.{attributes_of, IsKeyedBy};
ghost use Rattle.indexed_tree.specs.directory_api.Answers.{only};
ghost use Rattle.indexed_tree.specs.Stored.{directory, AreKeyedBy};
ghost use Rattle.dir_search.specs.Answer.{answer, answer_of, answer_at, found_at, in_scope, tried, tried_of, tried_at, is_true, is_base, stands, is_empty};
ghost use Rattle.indexed_tree.specs.directory_api.Answers.{refused as refused_answer};
ghost use Rattle.dir_search.specs.Counted.{IsCountAtBase, IsCountFrom, IsCountOf};
ghost use Rattle.dir_search.specs.Evaluated.{IsFewAtBase, LooksAtFew, goes_over};
ghost use Rattle.dir_search.specs.private.View.{Finds, shows_of};
ghost use Rattle.std.specs.Arc.{arc_value};
ghost use Rattle.indexed_tree.specs.directory_api.View.{answer_view};

use crate::bound_search::BoundSearch;
use crate::refusing::refused;
use crate::root_dse::show_root;
use crate::scoping::is_unnamed;
use crate::selecting::shows_for;
use indexed_tree::{
    Entry, IndexedTree, Name, NameError, Rdn, Reading, Reply, ResultCode, Schema, Scope,
    SearchAnswer, SearchRequest, Shows, Truth,
};
use ldap_eval::{BoundFilter, bind, value};
use search_plans::tests_are_items;
use std::alloc::{AllocError, Global};
use std::sync::Arc;

/// Whether a filter is True on an entry of a name.
pub fn matches(bound: &BoundFilter, entry: &Entry, name: &Name) -> bool
    ensures { (s : SchemaModel) (t : FilterTree) → IsBoundTo s t bound.now → IsKeyedBy s entry.now
        → result ≡ is_true (filter_value s t name.now (attributes_of entry.now)) }
{
    match value(bound, entry, name) {
        Truth::True => true,
        Truth::False | Truth::Undefined => false,
    }
}

/// The search at a base that stands.
fn search_scope(
    alloc: Global,
    schema: &Schema,
    indexed: &IndexedTree,
    base: &[Rdn],
    request: &SearchRequest,
    shows: &Arc<Shows>,
) -> Result<SearchAnswer, AllocError>
    requires keyed { AreKeyedBy schema.now indexed.now.tree.entries }
    requires stands { stands (directory schema.now indexed.now.tree) base.now ≡ true }
    requires shown_as { arc_value shows.now ≡ shows_of schema.now request.now }
    ensures found { IfOk result (λ a. Finds a (found_at (directory schema.now indexed.now.tree)
        (search_view request.now) base.now)
        (length (in_scope (directory schema.now indexed.now.tree) request.now.scope base.now))) }
    ensures few { IfOk result (λ a. IsFewAtBase indexed.now.indexes (directory schema.now indexed.now.tree)
        (search_view request.now) base.now a.tests) }
    ensures counted { IfOk result (λ a. IsCountAtBase indexed.now.indexes (directory schema.now indexed.now.tree)
        (search_view request.now) base.now a.tests) }
{
    indexed.tree().is_directory();
    tests_are_items();
    let bound = bind(alloc, schema, &request.filter)?;
    let bound_search = BoundSearch {
        alloc,
        schema,
        indexed,
        bound: &bound,
        base,
        request,
        shows,
    };
    bound_search.in_scope()
}

/// Whether a search asks for the root DSE: the empty name alone (RFC 4512 5.1).
fn asks_for_root(scope: Scope, base: &[Rdn]) -> bool
    ensures { result ≡ is_empty base.now && is_base scope }
{
    match scope {
        Scope::BaseObject => is_unnamed(base),
        Scope::SingleLevel | Scope::WholeSubtree | Scope::SubordinateSubtree => false,
    }
}

/// Whether a base stands: the empty name, or an entry's.
#[tactic(auto, using(crate::proofs::Compared::some_named))]
fn is_standing(store: &Reading<'_>, base: &[Rdn]) -> bool
    ensures { result ≡ stands store.now.directory base.now }
{
    is_unnamed(base) || store.find(base).is_some()
}

/// The search at a base.
fn search_at(
    alloc: Global,
    store: &Reading<'_>,
    base: &[Rdn],
    request: &SearchRequest,
) -> Result<SearchAnswer, AllocError>
    ensures found { IfOk result (λ a. Finds a (answer_at store.now.directory (search_view request.now) base.now)
        (tried_at store.now.directory (search_view request.now) base.now)) }
    ensures few { IfOk result (λ a. goes_over store.now.directory (search_view request.now) base.now ≡ true
        → IsFewAtBase store.now.indexes store.now.directory (search_view request.now) base.now a.tests) }
    ensures counted { IfOk result (λ a. IsCountFrom store.now (search_view request.now) base.now a.tests) }
{
    if asks_for_root(request.scope, base) {
        return show_root(alloc, store, request);
    }
    if is_standing(store, base) {
        let shows = shows_for(alloc, store, request)?;
        return search_scope(
            alloc,
            store.schema(),
            store.indexed(),
            base,
            request,
            &shows,
        );
    }
    let reply = store.not_found(alloc, base)?;
    Ok(refused(alloc, reply))
}

/// A code and nothing else.
fn refused_with(alloc: Global, code: ResultCode) -> SearchAnswer
    ensures { Finds result (refused_answer (only code)) 0 }
{
    refused(alloc, Reply::only(alloc, code))
}

/// The search at the base of a text.
fn search_text(
    alloc: Global,
    store: &Reading<'_>,
    request: &SearchRequest,
) -> Result<SearchAnswer, AllocError>
    ensures found { IfOk result (λ a. Finds a (answer_of store.now.directory (search_view request.now)
        (name_of_text store.now.directory.schema (search_view request.now).base))
        (tried_of store.now.directory (search_view request.now) (name_of_text store.now.directory.schema
        (search_view request.now).base))) }
    ensures few { IfOk result (λ a. LooksAtFew store.now (search_view request.now) a.tests) }
    ensures counted { IfOk result (λ a. IsCountOf store.now (search_view request.now) a.tests) }
{
    match Name::read(alloc, store.schema(), &request.base) {
        Ok(base) => search_at(alloc, store, base.rdns(), request),
        Err(NameError::BadName) => Ok(refused_with(alloc, ResultCode::INVALID_DN_SYNTAX)),
        Err(NameError::NoMemory) => Err(AllocError),
    }
}

/// The answer of a search (RFC 4511 4.5.1 and 4.5.2): the entries in scope whose filter value is True, in order of
/// number, each once, with just the selected attributes. Code 4 where there are more than the size limit, 2 for the
/// scope that RFC 4511 has not, 34 for a base that is no name, 32 for one that has no entry. Only want of memory is an
/// error.
pub fn search(
    alloc: Global,
    store: &Reading<'_>,
    request: &SearchRequest,
) -> Result<SearchAnswer, AllocError>
    ensures answer { IfOk result (λ a. answer_view a ≡ answer store.now.directory (search_view request.now)) }

    // The count that is told is at most that of the entries in scope.
    ensures tests { IfOk result (λ a. a.tests ≤ tried store.now.directory (search_view request.now)) }

    // It is 0, where the indexes decide the filter; of an `and` at most as many as each decided part is True on; and
    // with a size limit no entry behind the first past it is counted.
    ensures few { IfOk result (λ a. LooksAtFew store.now (search_view request.now) a.tests) }

    // It is just that of the entries in scope that plans of the filter leave open, up to the first past the size limit;
    // plans are what the indexes tell of it, and where the indexes decide the filter nothing is left open.
    ensures counted { IfOk result (λ a. IsCountOf store.now (search_view request.now) a.tests) }
{
    match request.scope {
        Scope::SubordinateSubtree => Ok(refused_with(alloc, ResultCode::PROTOCOL_ERROR)),
        Scope::BaseObject | Scope::SingleLevel | Scope::WholeSubtree => {
            search_text(alloc, store, request)
        }
    }
}
