//! Writes a filter's one spelling.

ghost use Rattle.std.specs.Prelude.{◌≡◌, ◌<◌, ◌≤◌, ◌^◌, ◌++◌, length, OnOk, OnErr, IsErrOf};
ghost use Rattle.ldap_filter.specs.Tree.{Tree};
ghost use Rattle.ldap_filter.specs.View.{view};
ghost use Rattle.ldap_filter.specs.private.View.{views};
ghost use Rattle.ldap_filter.specs.Grammar.{filter_content, filter_bytes, filters_bytes, HasTexts, IsFilter};

use crate::tree::Filter;
use crate::writing_item::{put_assertion, put_extensible, put_substrings};
use ldap_ber::{WriteError, write};
use std::alloc::Global;

#[cycle(write)]
fn put_filter(alloc: Global, filter: &Filter, out: &mut Vec<u8>) -> Result<(), WriteError>
    ensures ok { OnOk result (out.new.items ≡ out.old.items ++ filter_bytes (view filter.now)) }
    ensures fits { OnOk result (length (filter_content (view filter.now)) < 2 ^ 32) }
    ensures too_long { IsErrOf result WriteError.TooLong
        → 2 ^ 32 ≤ length (filter_content (view filter.now)) }
    ensures err { OnErr result (out.new.items ≡ out.old.items) }
{
    let mut content = Vec::new(alloc);
    match filter {
        Filter::And(filters) => {
            put_row(alloc, filters, &mut content)?;
            write(0xa0, &content, out)
        }
        Filter::Or(filters) => {
            put_row(alloc, filters, &mut content)?;
            write(0xa1, &content, out)
        }
        Filter::Not(inner) => {
            put_filter(alloc, inner, &mut content)?;
            write(0xa2, &content, out)
        }
        Filter::Equal {
            description,
            assertion,
        } => put_assertion(alloc, 0xa3, description.as_str(), assertion, out),
        Filter::Substrings(parts) => put_substrings(alloc, parts, out),
        Filter::AtLeast {
            description,
            assertion,
        } => put_assertion(alloc, 0xa5, description.as_str(), assertion, out),
        Filter::AtMost {
            description,
            assertion,
        } => put_assertion(alloc, 0xa6, description.as_str(), assertion, out),
        Filter::Present(description) => write(0x87, description.as_bytes(), out),
        Filter::Approx {
            description,
            assertion,
        } => put_assertion(alloc, 0xa8, description.as_str(), assertion, out),
        Filter::Extensible(assertion) => put_extensible(alloc, assertion, out),
    }
}

#[cycle(write)]
fn put_row(alloc: Global, filters: &[Filter], out: &mut Vec<u8>) -> Result<(), WriteError>
    ensures ok { OnOk result (out.new.items ≡ out.old.items ++ filters_bytes (views filters.now)) }
    ensures too_long { IsErrOf result WriteError.TooLong
        → 2 ^ 32 ≤ length (filters_bytes (views filters.now)) }
{
    for filter in filters {
        put_filter(alloc, filter, out)?;
    }
    Ok(())
}

/// Writes the one shortest form of a filter at the end. E3 only where the content of its element is
/// over 4294967295 octets, and it is then never written. An `Err` changes nothing.
pub fn write_filter(alloc: Global, filter: &Filter, out: &mut Vec<u8>) -> Result<(), WriteError>
    ensures ok { OnOk result (out.new.items ≡ out.old.items ++ filter_bytes (view filter.now)) }
    ensures fits { OnOk result (length (filter_content (view filter.now)) < 2 ^ 32) }
    ensures too_long { IsErrOf result WriteError.TooLong
        → 2 ^ 32 ≤ length (filter_content (view filter.now)) }
    ensures err { OnErr result (out.new.items ≡ out.old.items) }
{
    put_filter(alloc, filter, out)
}

/// What is written is in the grammar, where its content is short enough to be written.
pub fn is_spelling()
    ensures { (t : Tree) → HasTexts t → length (filter_content t) < 2 ^ 32
        → IsFilter t (filter_bytes t) }
{}
