//! Copies filters.

ghost use Rattle.std.specs.Prelude.{◌≡◌, IfOk};
ghost use Rattle.ldap_filter.specs.View.{view};
ghost use Rattle.ldap_filter.specs.private.View.{views};

use crate::copying_item::{copy_extensible, copy_octets, copy_substrings, copy_text};
use crate::tree::Filter;
use std::alloc::{AllocError, Global};

/// A copy that stands for the same tree. An `Err` is want of memory.
#[cycle(copy)]
pub fn copy_filter(alloc: Global, filter: &Filter) -> Result<Filter, AllocError>
    ensures { IfOk result (λ f. view f ≡ view filter.now) }
{
    match filter {
        Filter::And(filters) => Ok(Filter::And(copy_row(alloc, filters)?)),
        Filter::Or(filters) => Ok(Filter::Or(copy_row(alloc, filters)?)),
        Filter::Not(inner) => Ok(Filter::Not(Box::new(alloc, copy_filter(alloc, inner)?)?)),
        Filter::Equal {
            description,
            assertion,
        } => Ok(Filter::Equal {
            description: copy_text(alloc, description)?,
            assertion: copy_octets(alloc, assertion)?,
        }),
        Filter::Substrings(filter) => Ok(Filter::Substrings(copy_substrings(alloc, filter)?)),
        Filter::AtLeast {
            description,
            assertion,
        } => Ok(Filter::AtLeast {
            description: copy_text(alloc, description)?,
            assertion: copy_octets(alloc, assertion)?,
        }),
        Filter::AtMost {
            description,
            assertion,
        } => Ok(Filter::AtMost {
            description: copy_text(alloc, description)?,
            assertion: copy_octets(alloc, assertion)?,
        }),
        Filter::Present(description) => Ok(Filter::Present(copy_text(alloc, description)?)),
        Filter::Approx {
            description,
            assertion,
        } => Ok(Filter::Approx {
            description: copy_text(alloc, description)?,
            assertion: copy_octets(alloc, assertion)?,
        }),
        Filter::Extensible(assertion) => Ok(Filter::Extensible(copy_extensible(alloc, assertion)?)),
    }
}

#[cycle(copy)]
fn copy_row(alloc: Global, filters: &[Filter]) -> Result<Vec<Filter>, AllocError>
    ensures { IfOk result (λ v. views v.items ≡ views filters.now) }
{
    let mut copies = Vec::new(alloc);
    for filter in filters {
        copies.push(copy_filter(alloc, filter)?)?;
    }
    Ok(copies)
}
