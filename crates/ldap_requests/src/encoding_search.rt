//! Writes a search request.

ghost use Rattle.std.specs.Prelude.{◌≡◌, ◌^◌, ◌≤◌, ◌<◌, ◌++◌, length, IfOk, OnOk, OnErr, IsErrOf};
ghost use Rattle.ldap_filter.specs.ldap_ber.Element.{element_bytes};
ghost use Rattle.ldap_filter.specs.ldap_ber.Rows.{row_bytes};
ghost use Rattle.ldap_requests.specs.View.{search_view};
ghost use Rattle.ldap_requests.specs.Grammar.{scope_number, deref_number};
ghost use Rattle.ldap_requests.specs.Written.{search_content, target_bytes, bounds_bytes};

use crate::search::{DerefAliases, Scope, SearchRequest};
use ldap_filter::{WriteError, put_flag, put_number, put_texts, write, write_filter};
use std::alloc::Global;

/// The number of a scope.
fn scope_number(scope: Scope) -> u32
    ensures { result ≡ scope_number scope }
{
    match scope {
        Scope::BaseObject => 0,
        Scope::SingleLevel => 1,
        Scope::WholeSubtree => 2,
        Scope::SubordinateSubtree => 3,
    }
}

/// The number of what is done with aliases.
fn deref_number(deref: DerefAliases) -> u32
    ensures { result ≡ deref_number deref }
{
    match deref {
        DerefAliases::NeverDerefAliases => 0,
        DerefAliases::DerefInSearching => 1,
        DerefAliases::DerefFindingBaseObj => 2,
        DerefAliases::DerefAlways => 3,
    }
}

/// Writes what is searched.
fn put_target(request: &SearchRequest, out: &mut Vec<u8>) -> Result<(), WriteError>
    ensures ok { OnOk result (out.new.items ≡ out.old.items ++ target_bytes (search_view request.now)) }
    ensures too_long { IsErrOf result WriteError.TooLong
        → 2 ^ 32 ≤ length (target_bytes (search_view request.now)) }
{
    write(0x04, request.base.as_bytes(), out)?;
    put_number(0x0a, scope_number(request.scope), out)?;
    put_number(0x0a, deref_number(request.deref_aliases), out)
}

/// Writes how much is asked for.
fn put_bounds(request: &SearchRequest, out: &mut Vec<u8>) -> Result<(), WriteError>
    ensures ok { OnOk result (out.new.items ≡ out.old.items ++ bounds_bytes (search_view request.now)) }
    ensures too_long { IsErrOf result WriteError.TooLong
        → 2 ^ 32 ≤ length (bounds_bytes (search_view request.now)) }
{
    put_number(0x02, request.size_limit, out)?;
    put_number(0x02, request.time_limit, out)?;
    put_flag(request.types_only, out)
}

/// Writes which attributes are asked for.
fn put_attributes(
    alloc: Global,
    request: &SearchRequest,
    out: &mut Vec<u8>,
) -> Result<(), WriteError>
    ensures ok { OnOk result (out.new.items ≡ out.old.items ++ element_bytes 48
        (row_bytes (element_bytes 4) (search_view request.now).attributes)) }
    ensures too_long { IsErrOf result WriteError.TooLong
        → 2 ^ 32 ≤ length (element_bytes 48 (row_bytes (element_bytes 4) (search_view request.now).attributes)) }
{
    let mut attributes = Vec::new(alloc);
    put_texts(&request.attributes, &mut attributes)?;
    write(0x30, &attributes, out)
}

/// The content of a search request.
pub fn search_content(alloc: Global, request: &SearchRequest) -> Result<Vec<u8>, WriteError>
    ensures ok { IfOk result (λ v. v.items ≡ search_content (search_view request.now)) }
    ensures too_long { IsErrOf result WriteError.TooLong
        → 2 ^ 32 ≤ length (search_content (search_view request.now)) }
{
    let mut content = Vec::new(alloc);
    put_target(request, &mut content)?;
    put_bounds(request, &mut content)?;
    write_filter(alloc, &request.filter, &mut content)?;
    put_attributes(alloc, request, &mut content)?;
    Ok(content)
}
