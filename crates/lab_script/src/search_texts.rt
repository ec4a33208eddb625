//! Reads the search that a text writes.

ghost use Rattle.std.specs.Prelude.{◌≡◌, ◌≤◌, IfOk, IsErrOf, MatchOption};
ghost use Rattle.ldap_filter.specs.Tree.{Tree};
ghost use Rattle.ldap_filter.specs.View.{view};
ghost use Rattle.ldif.specs.ldap_msg.Messages.{SearchRequestValue};
ghost use Rattle.ldif.specs.ldap_msg.View.{search_view};
ghost use Rattle.lab_script.specs.Cuts.{cut};
ghost use Rattle.lab_script.specs.Searches as searches;
ghost use Rattle.lab_script.specs.Searches.{IsFilterOf, IsSearchText};

use crate::adds::name_of;
use crate::cuts::{Cut, cut_text, text_of};
use crate::kinds::is_word;
use crate::text_fault::TextError;
use filter_text::{FilterTextError, read_text};
use ldap_filter::Filter;
use ldif::{DerefAliases, Scope, SearchRequest};
use std::alloc::Global;

/// The parts of a search's text.
#[derive(Clone, Copy)]
struct Parts<'a> {
    base: &'a [u8],
    scope: Scope,
    filter: &'a [u8],
}

/// The scope that a word names.
fn scope_of(word: &[u8]) -> Option<Scope>
    ensures { result ≡ searches.scope_of word.now }
{
    if is_word(word, b"base") {
        Some(Scope::BaseObject)
    } else if is_word(word, b"one") {
        Some(Scope::SingleLevel)
    } else if is_word(word, b"sub") {
        Some(Scope::WholeSubtree)
    } else {
        None
    }
}

/// The parts, where the base stands before the first bar.
fn cut_again<'a>(base: &'a [u8], behind: &'a [u8]) -> Option<Parts<'a>>
    ensures { MatchOption result (searches.cut_again base.now (cut 124 behind.now) ≡ None)
        (λ p. searches.cut_again base.now (cut 124 behind.now) ≡
        Some (record { base = p.base.now; scope = p.scope; filter = p.filter.now })) }
{
    let Some(
        Cut {
            front: word,
            behind: filter,
        },
    ) = cut_text(b'|', behind)
    else {
        return None;
    };
    match scope_of(word) {
        Some(scope) => Some(Parts {
            base,
            scope,
            filter,
        }),
        None => None,
    }
}

/// The parts of a search's text, which is cut at its first two bars.
fn parts_of(text: &[u8]) -> Option<Parts<'_>>
    ensures { MatchOption result (searches.parts_of text.now ≡ None)
        (λ p. searches.parts_of text.now ≡
        Some (record { base = p.base.now; scope = p.scope; filter = p.filter.now })) }
{
    match cut_text(b'|', text) {
        Some(parts) => cut_again(parts.front, parts.behind),
        None => None,
    }
}

/// The filter of a text.
fn filter_in(alloc: Global, text: &str) -> Result<Filter, TextError>
    ensures found { IfOk result (λ f. searches.IsSpelled text.now (view f)) }
    ensures bad { IsErrOf result TextError.BadText → (tree : Tree) → searches.IsSpelled text.now tree → ⊥ }
{
    match read_text(alloc, text) {
        Ok(filter) => Ok(filter),
        Err(FilterTextError::NoMemory) => Err(TextError::NoMemory),
        Err(_) => Err(TextError::BadText),
    }
}

/// The filter of octets, which are UTF-8.
fn filter_of(alloc: Global, octets: &[u8]) -> Result<Filter, TextError>
    ensures found { IfOk result (λ f. IsFilterOf octets.now (view f)) }
    ensures bad { IsErrOf result TextError.BadText → (tree : Tree) → IsFilterOf octets.now tree → ⊥ }
{
    match text_of(octets) {
        Some(text) => filter_in(alloc, text),
        None => Err(TextError::BadText),
    }
}

/// The search of these parts.
fn search_of(
    alloc: Global,
    base: &[u8],
    scope: Scope,
    filter: &[u8],
) -> Result<SearchRequest, TextError>
    ensures found { IfOk result
        (λ q. searches.IsSearchOf (record { base = base.now; scope = scope; filter = filter.now }) (search_view q)) }
    ensures bad { IsErrOf result TextError.BadText → (q : SearchRequestValue)
        → searches.IsSearchOf (record { base = base.now; scope = scope; filter = filter.now }) q → ⊥ }
{
    let base = name_of(alloc, base)?;
    let filter = filter_of(alloc, filter)?;
    Ok(SearchRequest {
        base,
        scope,
        deref_aliases: DerefAliases::NeverDerefAliases,
        size_limit: 0,
        time_limit: 0,
        types_only: false,
        filter,
        attributes: Vec::new(alloc),
    })
}

/// The search that a text writes, `BASE|SCOPE|FILTER`: cut at the first two bars; the scope is base, one or sub, and
/// the filter is a filter's text (RFC 4515 3). Aliases are never dereferenced; there are no limits and no selectors.
pub fn read_search(alloc: Global, text: &[u8]) -> Result<SearchRequest, TextError>
    // What is read is the search that the text writes.
    ensures found { IfOk result (λ q. IsSearchText text.now (search_view q)) }
    // Only a text that writes none is bad.
    ensures bad { IsErrOf result TextError.BadText → (q : SearchRequestValue) → IsSearchText text.now q → ⊥ }
{
    match parts_of(text) {
        Some(parts) => search_of(alloc, parts.base, parts.scope, parts.filter),
        None => Err(TextError::BadText),
    }
}
