//! Look-ups of several keys at once: all ways down go on level by level, so that the reads of one level don't wait for
//! one another.
ghost use Rattle.std.specs.Prelude.{◌≡◌, map, IfOk, option_copied};
ghost use Rattle.std.specs.Map.{lookup};
ghost use Rattle.std.specs.BTreeMap.{is_at};

use crate::sought::Sought;
use crate::tree::Tree;
use std::alloc::{AllocError, Global};
use std::marker::Model;

/// A way down to what is sought. Contracts see the value that it leads to.
#[derive(Drop)]
struct Way<'a, K: Ord, V, Q: Sought<K>> {
    at: &'a Tree<K, V>,
    sought: Q,
}

impl<'a, K: Ord, V, Q: Sought<K>> Model for Way<'a, K, V, Q> {
    ghost use Rattle.std.specs.Prelude.{Option};
    ghost use Rattle.std.specs.Map.{lookup};
    ghost use Rattle.std.specs.BTreeMap.{is_at};

    ghost Value = { Option V };

    ghost view = { λ w. lookup (is_at (K.cmp (Q.key w.sought))) w.at.now.0 };
}

impl<'a, K: Ord + Drop, V: Drop, Q: Sought<K> + Drop> Way<'a, K, V, Q> {
    // One step further.
    fn step(&mut self)
        ensures { self.new ≡ self.old }
    {
        self.at = self.at.toward(&self.sought);
    }

    // The value at the end of the way.
    fn end(&self) -> Option<&'a V>
        ensures { option_copied result ≡ self.now }
    {
        self.at.find(&self.sought)
    }
}

// A way from the root for each.
fn ways_to<'a, K: Ord + Drop, V: Drop, Q: Sought<K> + Copy + Drop>(
    alloc: Global,
    tree: &'a Tree<K, V>,
    sought: &[Q],
) -> Result<Vec<Way<'a, K, V, Q>>, AllocError>
    ensures { IfOk result (λ v. v.items ≡ map (λ q. lookup (is_at (K.cmp (Q.key q))) tree.now.0) sought.now) }
{
    let mut ways = Vec::with_capacity(alloc, sought.len())?;
    for one in sought {
        ways.push(Way {
            at: tree,
            sought: *one,
        })?;
    }
    Ok(ways)
}

// One step further on each way.
fn step_each<K: Ord + Drop, V: Drop, Q: Sought<K> + Drop>(ways: &mut [Way<'_, K, V, Q>])
    ensures { ways.new ≡ ways.old }
{
    for i in 0..ways.len() {
        ways[i].step();
    }
}

/// The values at what is sought, each in its place.
pub fn find_each<'a, K: Ord + Drop, V: Drop, Q: Sought<K> + Copy + Drop>(
    alloc: Global,
    tree: &'a Tree<K, V>,
    sought: &[Q],
) -> Result<Vec<Option<&'a V>>, AllocError>
    ensures { IfOk result (λ v. map option_copied v.items ≡ map (λ q. lookup (is_at (K.cmp (Q.key q))) tree.now.0)
        sought.now) }
{
    let mut ways = ways_to(alloc, tree, sought)?;
    for _level in 0..tree.height() {
        step_each(&mut ways);
    }
    let mut found = Vec::with_capacity(alloc, ways.len())?;
    for way in &ways {
        found.push(way.end())?;
    }
    Ok(found)
}
