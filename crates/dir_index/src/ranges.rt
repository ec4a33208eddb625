// The lists of a range: their numbers, about how many there are, and whether an entry is in one.

ghost use Rattle.std.specs.Prelude.{◌≡◌, ◌≤◌, ◌||◌, ◌&&◌, ◌++◌, ℕ, OnOk};
ghost use Rattle.std.specs.List.{list_any};
ghost use Rattle.index_choice.specs.dir_entry.ldap_syntax.Meaning.{is_before};
ghost use Rattle.index_choice.specs.Choice.{kinds_of};
ghost use Rattle.dir_index.specs.Postings.{has_number, in_range, is_from as is_from_start, is_upto as is_upto_end, has_in_range as entry_has_in_range};
ghost use Rattle.dir_index.specs.private.ListKeys.{is_list_in as is_list_in_range, range_start};
ghost use Rattle.dir_index.specs.Places.{key_at};
ghost use Rattle.dir_index.specs.Stored.{list_at};
ghost use Rattle.dir_index.specs.private.Stored.{has_in_lists};
ghost use Rattle.index_choice.specs.dir_entry.shared_map.Runs.{entries_after};
ghost use Rattle.dir_index.specs.ListKeys.{list_order};

use crate::list_key::{BorrowedKey, ListKey, RUN, VALUE};
use crate::lists::Lists;
use crate::posting::Range;
use index_choice::{Attribute, Entry, Indexes, Key, NumberSet, Walk};
use std::alloc::AllocError;

/// As many lists of a range are counted by their numbers. Each costs a step of a walk, and a plan asks
/// this of each of its ranges.
const COUNTED: u64 = 64;

/// Whether octets stand before others in their order.
fn is_below(octets: &[u8], others: &[u8]) -> bool
    ensures { result ≡ is_before octets.now others.now }
{
    octets.cmp(others).is_lt()
}

/// Whether octets are not below the start of a range.
fn is_from(range: &Range, octets: &[u8]) -> bool
    ensures { result ≡ is_from_start range.now.from octets.now }
{
    match &range.from {
        Some(from) => !is_below(octets, from.as_octets()),
        None => true,
    }
}

/// Whether octets are not above the end of a range.
#[tactic(auto, using(crate::proofs::Keys::at_most_turned))]
fn is_upto(range: &Range, octets: &[u8]) -> bool
    ensures { result ≡ is_upto_end range.now.upto octets.now }
{
    match &range.upto {
        Some(upto) => !is_below(upto.as_octets(), octets),
        None => true,
    }
}

/// Whether octets stand in a range.
fn is_within(range: &Range, octets: &[u8]) -> bool
    ensures { result ≡ in_range range.now octets.now }
{
    is_from(range, octets) && is_upto(range, octets)
}

/// Whether a list is one of a value's key in a range.
fn is_list_in(range: &Range, key: &ListKey) -> bool
    ensures { result ≡ is_list_in_range range.now key.now }
{
    key.type_id as usize == range.type_id.number()
        && (key.rank == VALUE && is_within(range, key.octets.as_slice()))
}

/// The least key that a list of the range may have.
fn start_of(range: &Range) -> BorrowedKey<'_>
    ensures { key_at result ≡ range_start range.now }
{
    let octets: &[u8] = match &range.from {
        Some(from) => from.as_octets(),
        None => &[],
    };
    BorrowedKey {
        type_id: range.type_id,
        rank: VALUE,
        octets,
    }
}

/// Puts the numbers of a set behind those that are there.
fn push_numbers(numbers: &NumberSet, into: &mut Vec<u64>) -> Result<(), AllocError>
    ensures { OnOk result (into.new.items ≡ into.old.items ++ numbers.now) }
{
    let mut walk = numbers.walk();
    while let Some(number) = walk.next() {
        into.push(number)?;
    }
    Ok(())
}

/// Puts the numbers of the list at the start of a range behind those that are there, if the start is
/// in the range.
fn push_first(
    lists: &Lists,
    range: &Range,
    start: &BorrowedKey<'_>,
    into: &mut Vec<u64>,
) -> Result<(), AllocError>
    ensures { OnOk result ((n : ℕ) → has_number n into.new.items ≡
        (has_number n into.old.items || (in_range range.now start.now.octets.now
        && has_number n (list_at lists.now (key_at start.now))))) }
{
    if !is_within(range, start.octets) {
        return Ok(());
    }
    match lists.find(start) {
        Some(numbers) => push_numbers(numbers, into),
        None => Ok(()),
    }
}

/// Puts the numbers of the lists of a range that are behind its start behind those that are there.
fn push_rest(
    lists: &Lists,
    range: &Range,
    start: &BorrowedKey<'_>,
    into: &mut Vec<u64>,
) -> Result<(), AllocError>
    requires { key_at start.now ≡ range_start range.now }
    ensures { OnOk result ((n : ℕ) → has_number n into.new.items ≡ (has_number n into.old.items || has_in_lists
        range.now n (entries_after (list_order (key_at start.now)) lists.now))) }
{
    lists.rises();
    let mut walk = Walk::after(lists, start);
    while let Some((key, numbers)) = walk.next() {
        if !is_list_in(range, key) {
            return Ok(());
        }
        push_numbers(numbers, into)?;
    }
    Ok(())
}

/// Puts the numbers of the lists of a range behind those that are there.
pub fn push_lists(lists: &Lists, range: &Range, into: &mut Vec<u64>) -> Result<(), AllocError>
    ensures { OnOk result ((n : ℕ) → has_number n into.new.items ≡ (has_number n into.old.items || has_in_lists
        range.now n lists.now)) }
{
    lists.rises();
    let start = start_of(range);
    push_first(lists, range, &start, into)?;
    push_rest(lists, range, &start, into)?;
    Ok(())
}

/// How many numbers are in so many lists that a walk gives next.
fn counted(walk: &mut Walk<'_, ListKey, NumberSet>, lists: u64) -> u64 {
    let mut sum: u64 = 0;
    for _ in 0..lists {
        match walk.next() {
            Some((_, numbers)) => sum = sum.saturating_add(numbers.len()),
            None => return sum,
        }
    }
    sum
}

/// About how many numbers the lists of a range have: those of the first lists, and one for each
/// further list.
pub fn about_lists(lists: &Lists, range: &Range) -> u64 {
    let start = start_of(range);
    let first = match lists.find(&start) {
        Some(numbers) if is_within(range, start.octets) => numbers.len(),
        _ => 0,
    };
    let behind = lists
        .count_after(&start)
        .saturating_sub(count_beyond(lists, range));
    let mut walk = Walk::after(lists, &start);
    let some = counted(&mut walk, behind.min(COUNTED));
    first
        .saturating_add(some)
        .saturating_add(behind.saturating_sub(COUNTED))
}

/// How many lists are behind the end of a range.
fn count_beyond(lists: &Lists, range: &Range) -> u64 {
    match &range.upto {
        Some(upto) => lists.count_after(&BorrowedKey {
            type_id: range.type_id,
            rank: VALUE,
            octets: upto.as_octets(),
        }),
        None => lists.count_after(&BorrowedKey {
            type_id: range.type_id,
            rank: RUN,
            octets: &[],
        }),
    }
}

/// Whether one of the keys stands in a range.
fn is_some_within(range: &Range, keys: &[Key]) -> bool
    ensures { result ≡ list_any (in_range range.now) keys.now }
{
    keys.iter().any(|key| is_within(range, key.as_octets()))
}

/// Whether one of an attribute's keys stands in a range.
fn has_within(range: &Range, attribute: &Attribute) -> bool
    ensures { result ≡ list_any (in_range range.now) attribute.now.keys }
{
    let mut rest = attribute.parts();
    while let Some((part, others)) = rest.split_first() {
        if is_some_within(range, part.keys) {
            return true;
        }
        rest = others;
    }
    false
}

/// Whether attributes have a value in a range.
fn have_in_range(range: &Range, attributes: &[Attribute]) -> bool
    ensures { result ≡ entry_has_in_range range.now attributes.now }
{
    attributes.iter().any(|attribute| attribute.type_id() == range.type_id
        && has_within(range, attribute))
}

/// Whether an entry is one of a range's: it has a value there, and the range's type has an index in
/// order. It takes no memory.
pub fn has_in_range(indexes: &Indexes, range: &Range, entry: &Entry) -> bool
    ensures { result ≡ ((kinds_of indexes.now range.now.type_id).ordering && entry_has_in_range range.now entry.now) }
{
    indexes.kinds(range.type_id).ordering && have_in_range(range, entry.attributes())
}
