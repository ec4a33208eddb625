// The map of posting lists. A change takes the map: a number joins a list in place where no other owner has it, and is
// else, or where it leaves one, copied into new nodes.

ghost use Rattle.std.specs.Prelude.{◌≡◌, ◌||◌, ◌&&◌, ℕ, [], not, cond, nat_eq, IfOk};
ghost use Rattle.std.specs.Option.{unwrap_or};
ghost use Rattle.std.specs.Ordering.{nat_cmp};
ghost use Rattle.std.specs.BTreeMap.{is_at};
ghost use Rattle.std.specs.BTreeSet.{insert_key};
ghost use Rattle.std.specs.Set.{remove_key};
ghost use Rattle.dir_index.specs.declared.list_key.ListKey.{ListKey};
ghost use Rattle.dir_index.specs.declared.posting.Posting.{Posting};
ghost use Rattle.dir_index.specs.ListKeys.{key_of, is_same_list};
ghost use Rattle.dir_index.specs.private.Marked.{has_posting};
ghost use Rattle.dir_index.specs.Stored.{list_at};
ghost use Rattle.dir_index.specs.private.Stored.{is_in, AllRise};

use crate::list_key::ListKey;
use crate::marks::Marks;
use index_choice::{NumberSet, Shared, SharedMap, ValueChange};
use std::alloc::{AllocError, Global};
use std::mem::replace;

/// The lists by their keys; none is kept empty.
pub type Lists = SharedMap<ListKey, NumberSet>;

/// A number that joins the list of a key.
#[derive(Drop)]
struct Enlisting {
    number: u64,
}

impl ValueChange<NumberSet> for Enlisting {
    ghost becomes = { λ e o. insert_key nat_cmp (unwrap_or o []) e.number };

    fn first(self, _alloc: Global) -> Result<NumberSet, AllocError> {
        Ok(NumberSet::of_one(self.number))
    }

    fn alter(self, alloc: Global, value: &mut NumberSet) -> Result<(), AllocError> {
        let numbers = replace(value, NumberSet::new());
        *value = numbers.insert(alloc, self.number)?;
        Ok(())
    }
}

/// The lists with a number in that of a key.
fn enlisted(alloc: Global, lists: Lists, key: &ListKey, number: u64) -> Result<Lists, AllocError>
    ensures is { IfOk result (λ m. (k : ListKey) → list_at m k ≡ cond (is_same_list key.now k)
        (insert_key nat_cmp (list_at lists key.now) number) (list_at lists k)) }
    ensures rising { IfOk result (λ m. AllRise lists → AllRise m) }
{
    let now = lists.alter(alloc, key, Enlisting { number })?;
    Ok(now)
}

/// The lists with another one for a key; an empty one is not kept.
fn rewritten(
    alloc: Global,
    lists: Lists,
    key: &ListKey,
    numbers: NumberSet,
) -> Result<Lists, AllocError>
    ensures is { IfOk result (λ m. (k : ListKey) → list_at m k ≡ cond (is_same_list key.now k) numbers
        (list_at lists k)) }
    ensures rising { IfOk result (λ m. AllRise lists → AllRise m) }
{
    lists.rises();
    numbers.rises();
    if numbers.is_empty() {
        let fewer = lists.remove(alloc, key)?;
        return Ok(fewer);
    }
    let now = lists.insert(alloc, key.share()?, numbers)?;
    Ok(now)
}

/// The lists without a number in that of a key.
fn struck(alloc: Global, lists: Lists, key: &ListKey, number: u64) -> Result<Lists, AllocError>
    ensures rising { IfOk result (λ m. AllRise lists → AllRise m) }
    ensures is { IfOk result (λ m. (k : ListKey) → list_at m k ≡ cond (is_same_list key.now k)
        (remove_key (is_at (nat_cmp number)) (list_at lists key.now)) (list_at lists k)) }
{
    match lists.get(key) {
        Some(numbers) => {
            let fewer = numbers.without(alloc, number)?;
            let now = rewritten(alloc, lists, key, fewer)?;
            Ok(now)
        }
        None => Ok(lists),
    }
}

/// The lists with a number in those of the keys that one set has and another hasn't.
pub fn enlisted_in(
    alloc: Global,
    lists: Lists,
    marks: &Marks,
    others: &Marks,
    number: u64,
) -> Result<Lists, AllocError>
    ensures has { IfOk result (λ m. (p : Posting) (n : ℕ) → is_in m (key_of p) n ≡
        ((nat_eq n number && (has_posting marks.now.keys p && not (has_posting others.now.keys p))) || is_in lists
        (key_of p) n)) }
    ensures rising { IfOk result (λ m. AllRise lists → AllRise m) }
{
    let mut now = lists;
    for key in marks {
        if !others.contains(key) {
            now = enlisted(alloc, now, key, number)?;
        }
    }
    Ok(now)
}

/// The lists without a number in those of the keys that one set has and another hasn't.
pub fn struck_from(
    alloc: Global,
    lists: Lists,
    marks: &Marks,
    others: &Marks,
    number: u64,
) -> Result<Lists, AllocError>
    ensures has { IfOk result (λ m. AllRise lists → (p : Posting) (n : ℕ) → is_in m (key_of p) n ≡
        (is_in lists (key_of p) n
        && not (nat_eq n number && (has_posting marks.now.keys p && not (has_posting others.now.keys p))))) }
    ensures rising { IfOk result (λ m. AllRise lists → AllRise m) }
{
    let mut now = lists;
    for key in marks {
        if !others.contains(key) {
            now = struck(alloc, now, key, number)?;
        }
    }
    Ok(now)
}
