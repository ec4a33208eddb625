// Walks through rising numbers: of a slice, of a set, or of numbers that were gathered for it. It takes no memory.

ghost use Rattle.std.specs.Prelude.{◌≡◌, slice_get};
ghost use Rattle.search_plans.specs.private.Streams.{behind as left_behind};

use dir_index::{NumberSet, NumberWalk};
use std::marker::Model;

#[derive(Drop)]
enum Rest<'a> {
    OfSlice(&'a [u64]),
    OfSet(NumberWalk<'a>),
    /// Those from a place on.
    Gathered(Vec<u64>, usize),
}

/// A walk through rising numbers. Contracts see the numbers that are still to come.
#[derive(Drop)]
pub struct Walk<'a> {
    rest: Rest<'a>,
}

impl<'a> Model for Walk<'a> {
    ghost use Rattle.std.specs.Prelude.{ℕ, List};

    ghost Value = { List ℕ };

    ghost use Rattle.search_plans.specs.Walks.{still_in};

    ghost view = { λ w. still_in w.rest };
}

/// The list without the number at its head.
fn behind<'a>(list: &'a [u64], number: u64) -> &'a [u64]
    ensures { result.now ≡ left_behind number list.now }
{
    match list {
        [first, ..] if *first == number => &list[1..],
        _ => list,
    }
}

/// Takes the number off the set's walk, where it comes next.
fn pass_in_set(numbers: &mut NumberWalk, number: u64)
    ensures { numbers.new ≡ left_behind number numbers.old }
{
    if numbers.peek() == Some(number) {
        let _ = numbers.next();
    }
}

impl<'a> Walk<'a> {
    /// All numbers of a slice.
    pub fn of_slice(numbers: &'a [u64]) -> Walk<'a>
        ensures { result ≡ numbers.now }
    {
        Walk {
            rest: Rest::OfSlice(numbers),
        }
    }

    /// All numbers of a set.
    pub fn of_set(numbers: &'a NumberSet) -> Walk<'a>
        ensures { result ≡ numbers.now }
    {
        Walk {
            rest: Rest::OfSet(numbers.walk()),
        }
    }

    /// All numbers that were gathered.
    pub fn of_gathered(numbers: Vec<u64>) -> Walk<'a>
        ensures { result ≡ numbers.items }
    {
        Walk {
            rest: Rest::Gathered(numbers, 0),
        }
    }

    /// The number that comes next; the walk stays where it is.
    pub fn head(&self) -> Option<u64>
        ensures { result ≡ slice_get self.now 0 }
    {
        match &self.rest {
            Rest::OfSlice([]) => None,
            Rest::OfSlice([first, ..]) => Some(*first),
            Rest::OfSet(numbers) => numbers.peek(),
            Rest::Gathered(numbers, at) => {
                if *at < numbers.len() {
                    Some(numbers[*at])
                } else {
                    None
                }
            }
        }
    }

    /// Goes behind the number, where it comes next.
    pub fn pass(&mut self, number: u64)
        ensures { self.new ≡ left_behind number self.old }
    {
        match &mut self.rest {
            Rest::OfSlice(numbers) => *numbers = behind(numbers, number),
            Rest::OfSet(numbers) => pass_in_set(numbers, number),
            Rest::Gathered(numbers, at) => {
                if *at < numbers.len() && numbers[*at] == number {
                    *at += 1;
                }
            }
        }
    }
}
