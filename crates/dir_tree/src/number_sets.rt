// Sets of numbers, with the numbers of another set or without them.

ghost use Rattle.std.specs.Prelude.{◌≡◌, ◌&&◌, ◌||◌, ℕ, IfOk, not};
ghost use Rattle.dir_entry.specs.shared_map.Sets.{has_number};

use dir_entry::{NumberSet, Shared};
use std::alloc::{AllocError, Global};

/// A set with the numbers of another one: one insert for each of these.
pub fn joined(alloc: Global, set: &NumberSet, more: &NumberSet) -> Result<NumberSet, AllocError>
    ensures { IfOk result (λ s. (j : ℕ) → has_number j s
        ≡ (has_number j more.now || has_number j set.now)) }
{
    let mut changed = set.share()?;
    let mut rest = more.walk();
    while let Some(number) = rest.next() {
        changed = changed.with(alloc, number)?;
    }
    Ok(changed)
}

/// A set without the numbers of another one: one removal for each of these.
pub fn parted(alloc: Global, set: &NumberSet, fewer: &NumberSet) -> Result<NumberSet, AllocError>
    ensures { IfOk result (λ s. (j : ℕ) → has_number j s
        ≡ (not (has_number j fewer.now) && has_number j set.now)) }
{
    let mut changed = set.share()?;
    let mut rest = fewer.walk();
    while let Some(number) = rest.next() {
        changed.rises();
        changed = changed.without(alloc, number)?;
    }
    Ok(changed)
}
