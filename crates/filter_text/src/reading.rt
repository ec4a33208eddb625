//! Filters round filters, within the limits of depth and count.

ghost use Rattle.std.specs.Prelude.{◌≡◌, ◌≤◌, ◌<◌, ◌∷◌, ℕ, suc, List, true, IfOk, IfErr, MatchResult};
ghost use Rattle.ldap_filter.specs.Tree.{Tree, conj, disj, negation, depth as depth_of, count};
ghost use Rattle.ldap_filter.specs.View.{view};
ghost use Rattle.ldap_filter.specs.private.View.{views};
ghost use Rattle.filter_text.specs.Grammar.{IsFilterText, filter_text, has_text};
ghost use Rattle.filter_text.specs.private.Reads.{IsFrontRead, IsRowRead, IsFrontFault, IsRowFault};
ghost use Rattle.filter_text.specs.Refusals.{IsReadFault};

use crate::cutting::{before, begins_with, behind, from};
use crate::fault::FilterTextError;
use crate::printing::printed_is_a_text;
use crate::reading_item::item;
use crate::scanning::scan;
use ldap_filter::{Filter, MAX_DEPTH, MAX_ITEMS};
use std::alloc::Global;

/// An item behind `(`, and its `)`.
fn item_of(
    alloc: Global,
    text: &[u8],
    items: usize,
) -> Result<(Filter, usize, &[u8]), FilterTextError>
    requires and { (x : List ℕ) → text.now ≡ 38 ∷ x → ⊥ }
    requires or { (x : List ℕ) → text.now ≡ 124 ∷ x → ⊥ }
    requires not { (x : List ℕ) → text.now ≡ 33 ∷ x → ⊥ }
    ensures found { (limit : ℕ) → IfOk result (λ x.
        IsFrontRead (suc limit) (suc items) (40 ∷ text.now) (view x.0) x.1 x.2.now) }
    ensures left { IfOk result (λ x. x.1 ≡ items) }
    ensures fault { (limit : ℕ) → IfErr result (λ e. IsFrontFault e limit (suc items) (40 ∷ text.now)) }
{
    let rest = match behind(b')', from(b')', text)) {
        Some(rest) => rest,
        None => return Err(FilterTextError::BadFilterText { at: 0 }),
    };
    let filter = item(alloc, before(b')', text))?;
    Ok((filter, items, rest))
}

#[cycle(filter)]
fn and_of(
    alloc: Global,
    text: &[u8],
    depth: usize,
    items: usize,
) -> Result<(Filter, usize, &[u8]), FilterTextError>
    ensures found { IfOk result (λ x. IsFrontRead (suc depth) (suc items) (40 ∷ 38 ∷ text.now) (view x.0) x.1 x.2.now) }
    ensures left { IfOk result (λ x. x.1 ≤ items) }
    ensures fault { IfErr result (λ e. IsFrontFault e (suc depth) (suc items) (40 ∷ 38 ∷ text.now)) }
{
    let (filters, left, rest) = row_of(alloc, text, depth, items)?;
    Ok((Filter::And(filters), left, rest))
}

#[cycle(filter)]
fn or_of(
    alloc: Global,
    text: &[u8],
    depth: usize,
    items: usize,
) -> Result<(Filter, usize, &[u8]), FilterTextError>
    ensures found { IfOk result (λ x.
        IsFrontRead (suc depth) (suc items) (40 ∷ 124 ∷ text.now) (view x.0) x.1 x.2.now) }
    ensures left { IfOk result (λ x. x.1 ≤ items) }
    ensures fault { IfErr result (λ e. IsFrontFault e (suc depth) (suc items) (40 ∷ 124 ∷ text.now)) }
{
    let (filters, left, rest) = row_of(alloc, text, depth, items)?;
    Ok((Filter::Or(filters), left, rest))
}

#[cycle(filter)]
fn not_of(
    alloc: Global,
    text: &[u8],
    depth: usize,
    items: usize,
) -> Result<(Filter, usize, &[u8]), FilterTextError>
    ensures found { IfOk result (λ x. IsFrontRead (suc depth) (suc items) (40 ∷ 33 ∷ text.now) (view x.0) x.1 x.2.now) }
    ensures left { IfOk result (λ x. x.1 ≤ items) }
    ensures fault { IfErr result (λ e. IsFrontFault e (suc depth) (suc items) (40 ∷ 33 ∷ text.now)) }
{
    let (inner, left, after) = filter_of(alloc, text, depth, items)?;
    let rest = match behind(b')', after) {
        Some(rest) => rest,
        None => return Err(FilterTextError::BadFilterText { at: 0 }),
    };
    let inner = Box::new(alloc, inner)?;
    Ok((Filter::Not(inner), left, rest))
}

#[cycle(filter)]
fn inside_of(
    alloc: Global,
    text: &[u8],
    depth: usize,
    items: usize,
) -> Result<(Filter, usize, &[u8]), FilterTextError>
    ensures found { IfOk result (λ x. IsFrontRead (suc depth) (suc items) (40 ∷ text.now) (view x.0) x.1 x.2.now) }
    ensures left { IfOk result (λ x. x.1 ≤ items) }
    ensures fault { IfErr result (λ e. IsFrontFault e (suc depth) (suc items) (40 ∷ text.now)) }
{
    if let Some(row) = behind(b'&', text) {
        return and_of(alloc, row, depth, items);
    }
    if let Some(row) = behind(b'|', text) {
        return or_of(alloc, row, depth, items);
    }
    if let Some(inner) = behind(b'!', text) {
        return not_of(alloc, inner, depth, items);
    }
    item_of(alloc, text, items)
}

#[cycle(filter)]
fn filter_of(
    alloc: Global,
    text: &[u8],
    depth: usize,
    items: usize,
) -> Result<(Filter, usize, &[u8]), FilterTextError>
    ensures found { IfOk result (λ x. IsFrontRead depth items text.now (view x.0) x.1 x.2.now) }
    ensures left { IfOk result (λ x. x.1 < items) }
    ensures fault { IfErr result (λ e. IsFrontFault e depth items text.now) }
{
    if depth == 0 {
        return Err(FilterTextError::TooDeep);
    }
    if items == 0 {
        return Err(FilterTextError::TooManyItems);
    }
    match behind(b'(', text) {
        Some(inner) => inside_of(alloc, inner, depth - 1, items - 1),
        None => Err(FilterTextError::BadFilterText { at: 0 }),
    }
}

#[cycle(filter)]
fn row_of(
    alloc: Global,
    text: &[u8],
    depth: usize,
    items: usize,
) -> Result<(Vec<Filter>, usize, &[u8]), FilterTextError>
    ensures found { IfOk result (λ x. IsRowRead depth items text.now (views x.0.items) x.1 x.2.now) }
    ensures left { IfOk result (λ x. x.1 ≤ items) }
    ensures fault { IfErr result (λ e. IsRowFault e depth items text.now) }
{
    let mut filters = Vec::new(alloc);
    let mut rest = text;
    let mut left = items;
    while begins_with(b'(', rest) {
        let (filter, fewer, after) = filter_of(alloc, rest, depth, left)?;
        filters.push(filter)?;
        rest = after;
        left = fewer;
    }
    match behind(b')', rest) {
        Some(after) => Ok((filters, left, after)),
        None => Err(FilterTextError::BadFilterText { at: 0 }),
    }
}

/// The filter that a text spells (RFC 4515 3, RFC 4526 2). E18 where it spells none, with the length in octets of its
/// longest front that begins some filter's text; else E9 where the filter is more than 128 deep, E10 where it has more
/// than 512 items.
pub fn read_text(alloc: Global, text: &str) -> Result<Filter, FilterTextError>
    // What is read is the filter that the text spells, within the limits.
    ensures found { IfOk result (λ f.
        IsFilterText (view f) text.now × (depth_of (view f) ≤ 128) × (count (view f) ≤ 512)) }
    // A text of a filter within the limits is read as that filter, unless memory runs out.
    ensures only { (t : Tree) → IsFilterText t text.now → depth_of t ≤ 128 → count t ≤ 512
        → MatchResult result (λ f. view f ≡ t) (λ e. e ≡ FilterTextError.NoMemory) }
    // Which refusal it is.
    ensures refused { IfErr result (λ e. IsReadFault e text.now) }
{
    let octets = text.as_bytes();
    scan(alloc, octets)?;
    let (filter, _, _) = filter_of(alloc, octets, MAX_DEPTH, MAX_ITEMS)?;
    Ok(filter)
}

/// A text spells one filter, so the text that is printed of a filter is read as that filter.
pub fn one_filter_text()
    ensures unique { (t u : Tree) (text : List ℕ) → IsFilterText t text → IsFilterText u text → t ≡ u }
    ensures printed { (t u : Tree) → has_text t ≡ true → IsFilterText u (filter_text t) → u ≡ t }
{
    printed_is_a_text()
}
