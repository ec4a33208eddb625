//! Prints the one text of a filter, or refuses it (E18).

ghost use Rattle.std.specs.Prelude.{◌≡◌, ◌++◌, drop, length, ◌∷◌, [], List, ℕ, true, string_bytes, IfOk, IfErr, OnOk};
ghost use Rattle.ldap_filter.specs.Tree.{Tree};
ghost use Rattle.ldap_filter.specs.View.{view};
ghost use Rattle.ldap_filter.specs.private.View.{views};
ghost use Rattle.filter_text.specs.Grammar as grammar;
ghost use Rattle.filter_text.specs.Faults.{IsPrintFault};

use crate::checking::has_text;
use crate::fault::FilterTextError;
use crate::printing_item::{put_extensible, put_presence, put_simple, put_substrings};
use ldap_filter::Filter;
use std::alloc::{AllocError, Global};

/// Puts what stands between a filter's parentheses.
#[cycle(print)]
fn put_inner(out: &mut String, filter: &Filter) -> Result<(), AllocError>
    ensures ok { OnOk result (string_bytes out.new ≡ string_bytes out.old ++ grammar.filter_inner (view filter.now)) }
    ensures kept { string_bytes out.new ≡ string_bytes out.old ++ drop (length (string_bytes out.old))
        (string_bytes out.new) }
{
    match filter {
        Filter::And(filters) => {
            out.push('&')?;
            put_filters(out, filters)
        }
        Filter::Or(filters) => {
            out.push('|')?;
            put_filters(out, filters)
        }
        Filter::Not(inner) => {
            out.push('!')?;
            put_filter(out, inner)
        }
        Filter::Equal {
            description,
            assertion,
        } => put_simple(out, description.as_str(), "=", assertion),
        Filter::Substrings(filter) => put_substrings(out, filter),
        Filter::AtLeast {
            description,
            assertion,
        } => put_simple(out, description.as_str(), ">=", assertion),
        Filter::AtMost {
            description,
            assertion,
        } => put_simple(out, description.as_str(), "<=", assertion),
        Filter::Present(description) => put_presence(out, description.as_str()),
        Filter::Approx {
            description,
            assertion,
        } => put_simple(out, description.as_str(), "~=", assertion),
        Filter::Extensible(assertion) => put_extensible(out, assertion),
    }
}

/// Puts a filter.
#[cycle(print)]
fn put_filter(out: &mut String, filter: &Filter) -> Result<(), AllocError>
    ensures ok { OnOk result (string_bytes out.new ≡ string_bytes out.old ++ grammar.filter_text (view filter.now)) }
    ensures kept { string_bytes out.new ≡ string_bytes out.old ++ drop (length (string_bytes out.old))
        (string_bytes out.new) }
{
    out.push('(')?;
    put_inner(out, filter)?;
    out.push(')')
}

/// Puts filters, one after the other.
#[cycle(print)]
fn put_filters(out: &mut String, filters: &[Filter]) -> Result<(), AllocError>
    ensures ok { OnOk result (string_bytes out.new ≡ string_bytes out.old ++ grammar.filter_texts (views filters.now)) }
    ensures kept { string_bytes out.new ≡ string_bytes out.old ++ drop (length (string_bytes out.old))
        (string_bytes out.new) }
{
    for filter in filters {
        put_filter(out, filter)?;
    }
    Ok(())
}

/// The one text that is printed (RFC 4515 3). E18 at 0 only where no text spells the filter: a description or a rule is
/// not of RFC 4512's form, a part is empty, a substrings item has no part, an extensible item has neither description
/// nor rule, or its rule right behind a description reads as `dn`.
pub fn print_text(alloc: Global, filter: &Filter) -> Result<String, FilterTextError>
    // What is printed.
    ensures printed { IfOk result (λ s. string_bytes s ≡ grammar.filter_text (view filter.now)) }
    // What is printed spells the filter.
    ensures spells { IfOk result (λ s. grammar.IsFilterText (view filter.now) (string_bytes s)) }
    // Why nothing is printed.
    ensures refused { IfErr result (λ e. IsPrintFault e (view filter.now)) }
{
    if !has_text(filter) {
        return Err(FilterTextError::BadFilterText { at: 0 });
    }
    let mut out = String::new(alloc);
    put_filter(&mut out, filter)?;
    Ok(out)
}

/// A filter has a text exactly where its printed text spells it.
pub fn printed_is_a_text()
    ensures spells { (t : Tree) → grammar.has_text t ≡ true → grammar.IsFilterText t (grammar.filter_text t) }
    ensures only { (t : Tree) (text : List ℕ) → grammar.IsFilterText t text → grammar.has_text t ≡ true }
{}
