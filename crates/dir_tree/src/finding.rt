// Numbers by name: goes down from the root, relative name by relative name. Takes no memory.

ghost use Rattle.std.specs.Prelude.{◌≡◌, ◌≤◌, ◌-◌, ◌||◌, None, Some, cond, drop, length, is_some};
ghost use Rattle.std.specs.Option.{option_and_then, option_map, option_map_or};
ghost use Rattle.dir_entry.specs.ldap_dn.Names.{rdns};
ghost use Rattle.dir_tree.specs.Directory.{above, begins, name_eq};
ghost use Rattle.dir_tree.specs.private.Superiors.{down as down_from, number_at, step_at, unreached as not_reached};

use crate::levels::number_under;
use crate::place::Levels;
use crate::roots::Roots;
use dir_entry::{Rdn, are_same, is_front};

/// What comes behind a front of a name; none, where it is no front.
fn behind<'a>(front: &[Rdn], name: &'a [Rdn]) -> Option<&'a [Rdn]>
    ensures { option_map (λ s. s.now) result
        ≡ cond (begins (rdns front.now) (rdns name.now)) (Some (drop (length front.now) name.now)) None }
{
    if is_front(front, name) {
        Some(&name[front.len()..])
    } else {
        None
    }
}

/// The number at relative names below a number.
fn down(levels: &Levels, from: u64, path: &[Rdn]) -> Option<u64>
    ensures { result ≡ down_from (step_at levels.now) (rdns path.now) from }
{
    let mut at = from;
    for rdn in path {
        match number_under(levels, at, rdn) {
            Some(number) => at = number,
            None => return None,
        }
    }
    Some(at)
}

/// How many relative names the steps down from a number don't reach.
fn unreached(levels: &Levels, from: u64, path: &[Rdn]) -> usize
    ensures value { result ≡ not_reached (step_at levels.now) (rdns path.now) from }
    ensures short { result ≤ length path.now }
{
    let mut at = from;
    let mut left = path.len();
    for rdn in path {
        match number_under(levels, at, rdn) {
            Some(number) => at = number,
            None => return left,
        }
        left -= 1;
    }
    left
}

/// The name right above a name.
#[tactic(auto, using(crate::proofs::NameFacts::above_rdns))]
fn name_above(name: &[Rdn]) -> &[Rdn]
    ensures { rdns result.now ≡ above (rdns name.now) }
{
    &name[..name.len().saturating_sub(1)]
}

impl Roots {
    /// The number of a name: a look-up for each relative name below the root.
    pub fn number_of(&self, name: &[Rdn]) -> Option<u64>
        ensures { result
            ≡ number_at (step_at self.now.levels) (rdns self.now.suffix) self.now.root (rdns name.now) }
    {
        match behind(self.suffix.get().rdns(), name) {
            Some(path) => self.number_behind(path),
            None => None,
        }
    }

    /// The number at relative names below the root.
    fn number_behind(&self, path: &[Rdn]) -> Option<u64>
        ensures { result ≡ option_and_then (down_from (step_at self.now.levels) (rdns path.now)) self.now.root }
    {
        match self.root {
            Some(root) => down(&self.levels, root, path),
            None => None,
        }
    }

    /// The number of the name right above a name.
    pub fn number_over(&self, name: &[Rdn]) -> Option<u64>
        ensures { result ≡ number_at (step_at self.now.levels) (rdns self.now.suffix) self.now.root
            (above (rdns name.now)) }
    {
        self.number_of(name_above(name))
    }

    /// The number of the entry that a new name has right above it; none, where it is the root's.
    pub fn superior(&self, name: &[Rdn]) -> Option<u64>
        ensures { result ≡ cond (name_eq (rdns name.now) (rdns self.now.suffix)) None
            (number_at (step_at self.now.levels) (rdns self.now.suffix) self.now.root (above (rdns name.now))) }
    {
        if are_same(name, self.suffix.get().rdns()) {
            None
        } else {
            self.number_over(name)
        }
    }

    /// The length of the longest front of a name that has a number; 0, if there is none.
    pub fn front(&self, name: &[Rdn]) -> usize
        ensures { result ≡ cond (begins (rdns self.now.suffix) (rdns name.now))
            (option_map_or (λ r. length name.now - not_reached (step_at self.now.levels)
            (drop (length (rdns self.now.suffix)) (rdns name.now)) r) self.now.root 0) 0 }
    {
        match behind(self.suffix.get().rdns(), name) {
            Some(path) => self.front_behind(path, name.len()),
            None => 0,
        }
    }

    /// The same of a name of a length, by its relative names below the root.
    fn front_behind(&self, path: &[Rdn], whole: usize) -> usize
        requires { length path.now ≤ whole }
        ensures { result
            ≡ option_map_or (λ r. whole - not_reached (step_at self.now.levels) (rdns path.now) r) self.now.root 0 }
    {
        match self.root {
            Some(root) => whole - unreached(&self.levels, root, path),
            None => 0,
        }
    }
}
