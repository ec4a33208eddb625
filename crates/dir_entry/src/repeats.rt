// Finds what is given twice.

ghost use Rattle.std.specs.Prelude.{◌≡◌, IfOk, map};
ghost use Rattle.std.specs.Ordering.{eq_by_cmp};
ghost use Rattle.std.specs.Str.{bytes_eq};
ghost use Rattle.dir_entry.specs.Values.{has_twice as has_some_twice};

use std::alloc::{AllocError, Global};
use std::collections::BTreeSet;

/// Whether some item of the list is equal to another. It takes time as sorting does.
fn has_equal<K: Ord + Copy>(alloc: Global, list: &[K]) -> Result<bool, AllocError>
    ensures { IfOk result (λ b. b ≡ has_some_twice (eq_by_cmp K.cmp) list.now) }
{
    let mut seen = BTreeSet::new(alloc);
    for item in list {
        if !seen.insert(*item)? {
            return Ok(true);
        }
    }
    Ok(false)
}

/// Whether some octets are the same as others of the list.
pub fn has_twice(alloc: Global, list: &[&[u8]]) -> Result<bool, AllocError>
    ensures { IfOk result (λ b. b ≡ has_some_twice bytes_eq (map (λ octets. octets.now) list.now)) }
{
    has_equal(alloc, list)
}
