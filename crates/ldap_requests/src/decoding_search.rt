//! Reads a search request.

ghost use Rattle.std.specs.Prelude.{◌≡◌, ◌<◌, ◌≤◌, ℕ, List, Bool, IfOk, IfErr, map, string_bytes};
ghost use Rattle.ldap_filter.specs.ldap_ber.Faults.{IsPlainFault};
ghost use Rattle.ldap_filter.specs.Tree.{Tree, depth, count};
ghost use Rattle.ldap_filter.specs.View.{view as filter_view};
ghost use Rattle.ldap_requests.specs.Values.{SearchRequestValue};
ghost use Rattle.ldap_requests.specs.View.{search_view};
ghost use Rattle.ldap_requests.specs.Grammar.{scope_number, deref_number, IsTarget, IsBounds, IsQuestion, IsSearchRequest};
ghost use Rattle.ldap_requests.specs.Limits.{FilterStandsAt, IsLimitFault};
ghost use Rattle.ldap_requests.specs.declared.search.Scope.{Scope};
ghost use Rattle.ldap_requests.specs.declared.search.DerefAliases.{DerefAliases};

use crate::search::{DerefAliases, Scope, SearchRequest};
use ldap_filter::{
    Filter, MsgFault, elements, flag_field, number_field, read_filter, text_field, texts_field,
};
use std::alloc::Global;

/// The greatest number that a message holds, and one.
const NUMBER_LIMIT: u32 = 0x8000_0000;

/// The scope of a number.
fn scope_of(number: u32) -> Scope
    requires { number < 4 }
    ensures { scope_number result ≡ number }
{
    match number {
        0 => Scope::BaseObject,
        1 => Scope::SingleLevel,
        2 => Scope::WholeSubtree,
        _ => Scope::SubordinateSubtree,
    }
}

/// What is done with aliases, of a number.
fn deref_of(number: u32) -> DerefAliases
    requires { number < 4 }
    ensures { deref_number result ≡ number }
{
    match number {
        0 => DerefAliases::NeverDerefAliases,
        1 => DerefAliases::DerefInSearching,
        2 => DerefAliases::DerefFindingBaseObj,
        _ => DerefAliases::DerefAlways,
    }
}

/// What is searched, and the octets after it.
fn target(alloc: Global, octets: &[u8]) -> Result<((String, Scope, DerefAliases), &[u8]), MsgFault>
    ensures found { IfOk result (λ x. IsTarget (string_bytes x.0.0) x.0.1 x.0.2 octets.now x.1.now) }
    ensures fault { IfErr result (λ e. IsPlainFault e ((base : List ℕ) × (scope : Scope)
        × (deref : DerefAliases) × (rest : List ℕ) × IsTarget base scope deref octets.now rest)) }
{
    let (base, octets) = text_field(alloc, 0x04, octets)?;
    let (scope, octets) = number_field(0x0a, 4, octets)?;
    let (deref, octets) = number_field(0x0a, 4, octets)?;
    Ok(((base, scope_of(scope), deref_of(deref)), octets))
}

/// How much is asked for, and the octets after it.
fn bounds(octets: &[u8]) -> Result<((u32, u32, bool), &[u8]), MsgFault>
    ensures found { IfOk result (λ x. IsBounds x.0.0 x.0.1 x.0.2 octets.now x.1.now) }
    ensures fault { IfErr result (λ e. IsPlainFault e ((size time : ℕ) × (types_only : Bool)
        × (rest : List ℕ) × IsBounds size time types_only octets.now rest)) }
{
    let (size, octets) = number_field(0x02, NUMBER_LIMIT, octets)?;
    let (time, octets) = number_field(0x02, NUMBER_LIMIT, octets)?;
    let (types_only, octets) = flag_field(0x01, octets)?;
    Ok(((size, time, types_only), octets))
}

/// What entries are asked for, and what of them, up to the end.
fn question(alloc: Global, octets: &[u8]) -> Result<(Filter, Vec<String>), MsgFault>
    ensures found { IfOk result (λ x. IsQuestion (filter_view x.0)
        (map string_bytes x.1.items) octets.now) }
    ensures within { IfOk result (λ x. (depth (filter_view x.0) ≤ 128)
        × (count (filter_view x.0) ≤ 512)) }
    ensures fault { IfErr result (λ e. IsLimitFault e ((f : Tree) × (attributes : List (List ℕ))
        × IsQuestion f attributes octets.now) (λ place. octets.now ≡ place)) }
{
    let (filter, rest) = read_filter(alloc, octets)?;
    let (attributes, rest) = texts_field(alloc, 0x30, rest)?;
    elements(rest)?;
    Ok((filter, attributes))
}

/// The search request whose content this is.
pub fn search_of(alloc: Global, content: &[u8]) -> Result<SearchRequest, MsgFault>
    ensures found { IfOk result (λ s. IsSearchRequest (search_view s) content.now) }
    ensures within { IfOk result (λ s. (depth (search_view s).filter ≤ 128)
        × (count (search_view s).filter ≤ 512)) }
    ensures fault { IfErr result (λ e. IsLimitFault e ((s : SearchRequestValue)
        × IsSearchRequest s content.now) (FilterStandsAt content.now)) }
{
    let ((base, scope, deref_aliases), rest) = target(alloc, content)?;
    let ((size_limit, time_limit, types_only), rest) = bounds(rest)?;
    let (filter, attributes) = question(alloc, rest)?;
    Ok(SearchRequest {
        base,
        scope,
        deref_aliases,
        size_limit,
        time_limit,
        types_only,
        filter,
        attributes,
    })
}
