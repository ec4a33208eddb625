// Asks posting lists about rising numbers: whether each is in a set. It takes no memory.

ghost use Rattle.std.specs.Prelude.{◌≡◌, slice_get};
ghost use Rattle.dir_index.specs.shared_map.Ahead.{ahead};
ghost use Rattle.dir_index.specs.Postings.{has_number};
ghost use Rattle.search_plans.specs.private.Sets.{AreSameFrom};

use dir_index::{NumberSet, NumberWalk};
use std::marker::Model;

/// Asks a set about rising numbers. Contracts see the numbers that are still to come: those below a number that was
/// asked about have been passed.
#[derive(Drop)]
pub struct Probe<'a> {
    walk: NumberWalk<'a>,
}

impl<'a> Model for Probe<'a> {
    ghost use Rattle.std.specs.Prelude.{ℕ, List};
    ghost use Rattle.dir_index.specs.Postings.{IsRising};

    ghost Value = { List ℕ };

    ghost view = { λ p. p.walk };

    ghost invariant = { λ p. IsRising p.walk };
}

impl<'a> Probe<'a> {
    /// Asks a set, from its first number on.
    pub fn new(numbers: &'a NumberSet) -> Probe<'a>
        ensures { result ≡ numbers.now }
    {
        numbers.rises();
        Probe {
            walk: numbers.walk(),
        }
    }

    /// The set that is asked: the first number that is still to come, and those above it in the set, are what is still
    /// to come.
    pub fn numbers(&self) -> &'a NumberSet
        ensures { self.now ≡ ahead result.now (slice_get self.now 0) }
    {
        self.walk.set()
    }

    /// Whether a number is still to come. The walk goes forward to it, which costs less than a look-up where it is
    /// near.
    pub fn has(&mut self, number: u64) -> bool
        ensures found { result ≡ has_number number self.old }
        ensures same { AreSameFrom number (λ n. has_number n self.new) (λ n. has_number n self.old) }
    {
        self.walk.seek(number);
        self.walk.peek() == Some(number)
    }
}
