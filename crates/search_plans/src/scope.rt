// A scope: the numbers that a run is asked of.

ghost use Rattle.std.specs.Prelude.{◌≡◌, length};
ghost use Rattle.dir_index.specs.Postings.{has_number, IsRising};

use crate::having::has;
use crate::walking::Walk;
use dir_index::NumberSet;
use std::marker::Model;

#[derive(Drop)]
enum Source<'a> {
    Slice(&'a [u64]),
    Set(&'a NumberSet),
}

/// The numbers that a run is asked of, borrowed. Contracts see them in rising order.
#[derive(Drop)]
pub struct Scope<'a> {
    source: Source<'a>,
}

impl<'a> Model for Scope<'a> {
    ghost use Rattle.std.specs.Prelude.{ℕ, List};

    ghost Value = { List ℕ };

    ghost use Rattle.dir_index.specs.Postings.{IsRising};
    ghost use Rattle.search_plans.specs.Scopes.{numbers_of};

    ghost view = { λ s. numbers_of s.source };

    ghost invariant = { λ s. IsRising (numbers_of s.source) };
}

impl<'a> Scope<'a> {
    /// The numbers of a slice.
    pub fn of_slice(numbers: &'a [u64]) -> Scope<'a>
        requires { IsRising numbers.now }
        ensures { result ≡ numbers.now }
    {
        Scope {
            source: Source::Slice(numbers),
        }
    }

    /// The numbers of a set.
    pub fn of_set(numbers: &'a NumberSet) -> Scope<'a>
        ensures { result ≡ numbers.now }
    {
        numbers.rises();
        Scope {
            source: Source::Set(numbers),
        }
    }

    /// Whether a number is in the scope. A search of the slice or of the set.
    pub fn has(&self, number: u64) -> bool
        ensures { result ≡ has_number number self.now }
    {
        match &self.source {
            Source::Slice(numbers) => has(numbers, number),
            Source::Set(numbers) => numbers.contains(number),
        }
    }

    /// How many numbers.
    pub fn len(&self) -> u64
        ensures { result ≡ length self.now }
    {
        match &self.source {
            Source::Slice(numbers) => numbers.len() as u64,
            Source::Set(numbers) => numbers.len(),
        }
    }

    /// The numbers rise. A law, with no code.
    pub fn rises(&self)
        ensures { IsRising self.now }
    {
        let _source = &self.source;
    }

    /// A walk through all numbers.
    pub(crate) fn walk(&self) -> Walk<'a>
        ensures { result ≡ self.now }
    {
        match &self.source {
            Source::Slice(numbers) => Walk::of_slice(numbers),
            Source::Set(numbers) => Walk::of_set(numbers),
        }
    }
}
