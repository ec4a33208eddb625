//! Look-ups that come one after the other, in one map. The leaf of the look-up before is tried first.
ghost use Rattle.std.specs.Prelude.{◌≡◌, ◌<◌, List, ◌++◌, length, IsTrue, option_copied};
ghost use Rattle.std.specs.Map.{lookup};
ghost use Rattle.std.specs.BTreeMap.{is_at};
ghost use Rattle.shared_map.specs.Entries.{Rises};
ghost use Rattle.shared_map.specs.private.Runs.{IsAt};

use crate::map::SharedMap;
use crate::shared::Shared;
use crate::tree::found;
use std::cmp::Ordering;
use std::marker::Model;

/// A map that is asked about many keys. Keys that stand near each other cost one way down for each leaf. Contracts see
/// the map's entries.
#[derive(Drop)]
pub struct Cursor<'a, K: Ord, V> {
    map: &'a SharedMap<K, V>,
    run: &'a [(K, V)],
}

impl<'a, K: Ord, V> Model for Cursor<'a, K, V> {
    ghost use Rattle.std.specs.Prelude.{List};
    ghost use Rattle.shared_map.specs.private.Runs.{IsAt};

    ghost Value = { List (K × V) };

    ghost view = { λ a. a.map.now };

    ghost invariant = { λ a. IsAt K.cmp a.map.now a.run.now };
}

// Whether a key is neither before the first of a run nor behind the last.
fn reaches<K: Ord, V>(run: &[(K, V)], key: &K) -> bool
    ensures { IsTrue result → (before after : List (K × V)) → Rises K.cmp (before ++ (run.now ++ after))
        → lookup (is_at (K.cmp key.now)) (before ++ (run.now ++ after)) ≡ lookup (is_at (K.cmp key.now)) run.now }
{
    if run.is_empty() {
        return false;
    }
    match key.cmp(&run[0].0) {
        Ordering::Less => return false,
        _ => {}
    }
    match key.cmp(&run[run.len() - 1].0) {
        Ordering::Greater => false,
        _ => true,
    }
}

// The part of a map that a key is looked up in: a run, where it reaches the key, else the key's leaf.
fn run_for<'a, K: Ord + Shared, V: Shared>(
    map: &'a SharedMap<K, V>,
    run: &'a [(K, V)],
    key: &K,
) -> &'a [(K, V)]
    requires { IsAt K.cmp map.now run.now }
    ensures at { IsAt K.cmp map.now result.now }
    ensures rises { Rises K.cmp result.now }
    ensures value { lookup (is_at (K.cmp key.now)) map.now ≡ lookup (is_at (K.cmp key.now)) result.now }
{
    if reaches(run, key) {
        run
    } else {
        map.leaf_at(key)
    }
}

impl<'a, K: Ord + Shared, V: Shared> Cursor<'a, K, V> {
    /// Over a map.
    pub fn new(map: &'a SharedMap<K, V>) -> Cursor<'a, K, V>
        ensures { result ≡ map.now }
    {
        map.rises();
        let run = map.first_run();
        Cursor { map, run }
    }

    /// The value at a key.
    pub fn get(&mut self, key: &K) -> Option<&'a V>
        ensures same { self.new ≡ self.old }
        ensures value { option_copied result ≡ lookup (is_at (K.cmp key.now)) self.old }
    {
        let run = run_for(self.map, self.run, key);
        self.run = run;
        found(run, key)
    }
}
