//! Reads filters, within the limits of depth and count.

ghost use Rattle.std.specs.Prelude.{◌≡◌, ℕ, ◌≤◌, ◌++◌, List, IfOk, IfErr, MatchResult};
ghost use Rattle.std.specs.Bool.{OnTrue, OnFalse};
ghost use Rattle.ldap_filter.specs.Tree.{Tree, depth as depth_of, count};
ghost use Rattle.ldap_filter.specs.View.{view};
ghost use Rattle.ldap_filter.specs.private.View.{views};
ghost use Rattle.ldap_filter.specs.Grammar.{IsFilter};
ghost use Rattle.ldap_filter.specs.Limits.{IsOctet, IsFault};
ghost use Rattle.ldap_filter.specs.private.Limits.{Reads, ReadsRow, IsRowFault};

use crate::reading_item::item_of;
use crate::tree::Filter;
use ldap_ber::{MsgFault, element};
use std::alloc::Global;

/// How deep a filter may be: an item is 1 deep, and `and`, `or` and `not` add 1.
pub const MAX_DEPTH: usize = 128;

/// How many items a filter may have, each `and`, `or` and `not` counted too.
pub const MAX_ITEMS: usize = 512;

/// Whether a filter begins with this octet.
fn is_octet(first: u8) -> bool
    ensures yes { OnTrue result (IsOctet first) }
    ensures no { OnFalse result (IsOctet first → ⊥) }
{
    matches!(first, 0xa0..=0xa6 | 0xa8..=0xa9 | 0x87)
}

#[cycle(filter)]
fn filter_of(
    alloc: Global,
    octets: &[u8],
    depth: usize,
    items: usize,
) -> Result<(Filter, usize, &[u8]), MsgFault>
    ensures found { IfOk result (λ x. Reads depth items octets.now (view x.0) x.1 x.2.now) }
    ensures fault { IfErr result (λ e. IsFault e depth items octets.now) }
{
    let (element, rest) = element(octets)?;
    let content = element.content;
    if !is_octet(element.first) {
        return Err(MsgFault::NotAMessage);
    }
    if depth == 0 {
        return Err(MsgFault::TooDeep);
    }
    if items == 0 {
        return Err(MsgFault::TooManyItems);
    }
    match element.first {
        0xa0 => {
            let (filters, left) = row_of(alloc, content, depth - 1, items - 1)?;
            Ok((Filter::And(filters), left, rest))
        }
        0xa1 => {
            let (filters, left) = row_of(alloc, content, depth - 1, items - 1)?;
            Ok((Filter::Or(filters), left, rest))
        }
        0xa2 => {
            let (inner, left, after) = filter_of(alloc, content, depth - 1, items - 1)?;
            if !after.is_empty() {
                return Err(MsgFault::NotAMessage);
            }
            let inner = Box::new(alloc, inner)?;
            Ok((Filter::Not(inner), left, rest))
        }
        _ => {
            let item = item_of(alloc, element.first, content)?;
            Ok((item, items - 1, rest))
        }
    }
}

#[cycle(filter)]
fn row_of(
    alloc: Global,
    content: &[u8],
    depth: usize,
    items: usize,
) -> Result<(Vec<Filter>, usize), MsgFault>
    ensures found { IfOk result (λ x. ReadsRow depth items content.now (views x.0.items) x.1) }
    ensures fault { IfErr result (λ e. IsRowFault e depth items content.now) }
{
    let mut filters = Vec::new(alloc);
    let mut rest = content;
    let mut left = items;
    while !rest.is_empty() {
        let (filter, fewer, after) = filter_of(alloc, rest, depth, left)?;
        filters.push(filter)?;
        rest = after;
        left = fewer;
    }
    Ok((filters, left))
}

/// The filter at the front, and the octets after it (RFC 4511 4.5.1.7). E8 only where no filter is at
/// the front, E9 and E10 only where one opens there that is too deep or of too many items.
pub fn read_filter(alloc: Global, octets: &[u8]) -> Result<(Filter, &[u8]), MsgFault>
    // What is read is a filter within the limits.
    ensures found { IfOk result (λ x. (spelling : List ℕ) × IsFilter (view x.0) spelling
        × (octets.now ≡ spelling ++ x.1.now)
        × (depth_of (view x.0) ≤ 128) × (count (view x.0) ≤ 512)) }
    // A filter within the limits is read, whatever follows it, unless memory runs out.
    ensures only { (t : Tree) (spelling rest : List ℕ) → IsFilter t spelling
        → octets.now ≡ spelling ++ rest → depth_of t ≤ 128 → count t ≤ 512
        → MatchResult result (λ x. (view x.0 ≡ t) × (x.1.now ≡ rest)) (λ e. e ≡ MsgFault.NoMemory) }
    // Which fault it is.
    ensures fault { IfErr result (λ e. IsFault e 128 512 octets.now) }
{
    let (filter, _, rest) = filter_of(alloc, octets, MAX_DEPTH, MAX_ITEMS)?;
    Ok((filter, rest))
}

/// A spelling belongs to one filter, and none begins another.
pub fn one_filter()
    ensures { (t u : Tree) (a b x y : List ℕ) → IsFilter t a → IsFilter u b → a ++ x ≡ b ++ y
        → (a ≡ b) × (t ≡ u) }
{}
