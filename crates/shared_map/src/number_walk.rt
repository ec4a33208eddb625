//! Walks over a set of numbers, in rising order.
ghost use Rattle.std.specs.Prelude.{◌≡◌, ◌<◌, [], ◌∷◌, filter, nat_le, nat_lt, slice_get, MatchOption};
ghost use Rattle.shared_map.specs.Ahead.{ahead};

use crate::numbers::NumberSet;
use std::marker::Model;

/// A walk over a set. Contracts see the numbers that it still has to give. Its next number is at hand; those that
/// follow are in a run of the set, so that a step is a few instructions.
pub struct NumberWalk<'a> {
    set: &'a NumberSet,
    first: Option<u64>,
    rest: &'a [(u64, ())],
}

// Not derived, so that a crate above that owns one need not lay it out.
impl<'a> Drop for NumberWalk<'a> {
    fn drop(self) {
        let NumberWalk {
            set: _,
            first: _,
            rest: _,
        } = self;
    }
}

impl<'a> Model for NumberWalk<'a> {
    ghost use Rattle.std.specs.Prelude.{ℕ, List};
    ghost use Rattle.shared_map.specs.Ahead.{ahead};
    ghost use Rattle.shared_map.specs.private.Ahead.{IsAmid};

    ghost Value = { List ℕ };

    ghost view = { λ a. ahead a.set.now a.first };

    ghost invariant = { λ a. IsAmid a.set.now a.first a.rest.now };
}

impl NumberSet {
    /// A walk over all numbers.
    pub fn walk(&self) -> NumberWalk<'_>
        ensures { result ≡ self.now }
    {
        self.rises();
        let head = self.head();
        NumberWalk {
            set: self,
            first: head.first,
            rest: head.rest,
        }
    }

    /// A walk over the numbers above this one.
    pub fn walk_after(&self, number: u64) -> NumberWalk<'_>
        ensures { result ≡ filter (nat_lt number) self.now }
    {
        self.rises();
        let head = self.head_after(number);
        NumberWalk {
            set: self,
            first: head.first,
            rest: head.rest,
        }
    }
}

impl<'a> NumberWalk<'a> {
    /// The next number, which the walk still has to give.
    pub fn peek(&self) -> Option<u64>
        ensures { result ≡ slice_get self.now 0 }
    {
        self.first
    }

    /// The set that it goes over: what is still to come is its next number, and those above that one in the set.
    pub fn set(&self) -> &'a NumberSet
        ensures { self.now ≡ ahead result.now (slice_get self.now 0) }
    {
        self.set
    }

    // Goes on behind the number that is at hand.
    fn advance(&mut self, number: u64)
        requires { slice_get self.old 0 ≡ Some number }
        ensures { self.old ≡ number ∷ self.new }
    {
        match self.rest {
            [] => *self = self.set.walk_after(number),
            [head, rest @ ..] => {
                self.first = Some(head.0);
                self.rest = rest;
            }
        }
    }

    /// The next number.
    pub fn next(&mut self) -> Option<u64>
        ensures { MatchOption result ((self.old ≡ []) × (self.new ≡ [])) (λ n. self.old ≡ n ∷ self.new) }
    {
        match self.first {
            None => None,
            Some(number) => {
                self.advance(number);
                Some(number)
            }
        }
    }

    // Whether the run at hand ends below a number.
    fn is_far(&self, least: u64) -> bool {
        match self.rest {
            [] => true,
            [.., last] => last.0 < least,
        }
    }

    /// Goes forward to the first number that is at least this one. Where the run at hand ends below it, that is a
    /// look-up.
    pub fn seek(&mut self, least: u64)
        ensures { self.new ≡ filter (nat_le least) self.old }
    {
        match self.first {
            None => {}
            Some(number) => {
                if number < least {
                    self.seek_above(number, least);
                }
            }
        }
    }

    // Goes forward from a number below what is sought.
    fn seek_above(&mut self, number: u64, least: u64)
        requires at { slice_get self.old 0 ≡ Some number }
        requires below { number < least }
        ensures { self.new ≡ filter (nat_le least) self.old }
    {
        if self.is_far(least) {
            *self = self.set.walk_after(least - 1);
        } else {
            self.step_to(least);
        }
    }

    // Goes forward step by step.
    fn step_to(&mut self, least: u64)
        ensures { self.new ≡ filter (nat_le least) self.old }
    {
        while let Some(number) = self.first {
            if least <= number {
                return;
            }
            self.advance(number);
        }
    }
}
