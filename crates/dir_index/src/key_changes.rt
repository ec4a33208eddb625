// What two lists of keys differ in: all but the front and the end that they have in common.

ghost use Rattle.std.specs.Prelude.{◌≡◌, ◌≤◌, ◌++◌, ℕ, List, Bool, false, map, length, take, drop, IfOk, OnOk};
ghost use Rattle.std.specs.List.{list_any};

use index_choice::{Attribute, Key};
use std::alloc::{AllocError, Global};

/// The keys of an attribute, side by side.
pub fn keys_of<'a>(alloc: Global, attribute: &'a Attribute) -> Result<Vec<&'a Key>, AllocError>
    ensures { IfOk result (λ v. map (λ k. k.now) v.items ≡ attribute.now.keys) }
{
    let mut keys = Vec::with_capacity(alloc, attribute.len())?;
    let mut rest = attribute.parts();
    while let Some((part, others)) = rest.split_first() {
        push_keys(part.keys, &mut keys)?;
        rest = others;
    }
    Ok(keys)
}

/// Puts keys behind the others.
fn push_keys<'a>(more: &'a [Key], keys: &mut Vec<&'a Key>) -> Result<(), AllocError>
    ensures { OnOk result (map (λ k. k.now) keys.new.items ≡ map (λ k. k.now) keys.old.items ++ more.now) }
{
    for key in more {
        keys.push(key)?;
    }
    Ok(())
}

/// Keys before and after a change.
#[derive(Drop)]
pub struct KeyChange<'k, 'a> {
    pub before: &'k [&'a Key],
    pub after: &'k [&'a Key],
}

/// How many keys two lists have in common at the front. A test tells the whole lists from one another only where it
/// tells what is behind.
fn common_front(before: &[&Key], after: &[&Key]) -> usize
    ensures earlier { result ≤ length before.now }
    ensures later { result ≤ length after.now }
    ensures same { (f : List ℕ → Bool) → list_any f (map (λ k. k.now) (drop result before.now)) ≡
        list_any f (map (λ k. k.now) (drop result after.now)) → list_any f (map (λ k. k.now) before.now) ≡
        list_any f (map (λ k. k.now) after.now) }
{
    let mut count = 0;
    while count < before.len() && count < after.len() {
        if !before[count].is_same(after[count]) {
            return count;
        }
        count += 1;
    }
    count
}

/// How many keys are left of two lists before the end that they have in common. A test tells the whole lists from one
/// another only where it tells what is left.
fn before_end(before: &[&Key], after: &[&Key]) -> (usize, usize)
    ensures earlier { result.0 ≤ length before.now }
    ensures later { result.1 ≤ length after.now }
    ensures same { (f : List ℕ → Bool) → list_any f (map (λ k. k.now) (take result.0 before.now)) ≡
        list_any f (map (λ k. k.now) (take result.1 after.now)) → list_any f (map (λ k. k.now) before.now) ≡
        list_any f (map (λ k. k.now) after.now) }
{
    let mut earlier = before.len();
    let mut later = after.len();
    while earlier > 0 && later > 0 {
        if !before[earlier - 1].is_same(after[later - 1]) {
            return (earlier, later);
        }
        earlier -= 1;
        later -= 1;
    }
    (earlier, later)
}

/// The keys in which two lists differ, as far as a look from both ends finds. It takes no memory. A test that none of
/// them passes is passed by keys of both lists or of neither.
pub fn changed_keys<'k, 'a>(before: &'k [&'a Key], after: &'k [&'a Key]) -> KeyChange<'k, 'a>
    ensures { (f : List ℕ → Bool) → list_any f (map (λ k. k.now) result.before.now) ≡ false →
        list_any f (map (λ k. k.now) result.after.now) ≡ false → list_any f (map (λ k. k.now) before.now) ≡
        list_any f (map (λ k. k.now) after.now) }
{
    let count = common_front(before, after);
    let earlier = &before[count..];
    let later = &after[count..];
    let (earlier_left, later_left) = before_end(earlier, later);
    KeyChange {
        before: &earlier[..earlier_left],
        after: &later[..later_left],
    }
}
