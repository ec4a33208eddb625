// Candidates: walks through rising numbers, seen as one rising list. It takes no memory.

ghost use Rattle.std.specs.Prelude.{◌≡◌, ◌∷◌, [], map, MatchOption};
ghost use Rattle.search_plans.specs.Streams.{together};
ghost use Rattle.search_plans.specs.private.Streams.{behind as left_behind, lesser, IsLeastHead};
ghost use Rattle.dir_index.specs.private.Postings.{AreRising};

use crate::walking::Walk;
use std::alloc::{AllocError, Global};
use std::marker::Model;

/// So many numbers that come next are told at most: their entries fit into the processor's caches.
const MOST_HEADS: usize = 64;

/// Walks through rising numbers, seen as one: the numbers that are still to come.
#[derive(Drop)]
pub struct Stream<'a> {
    walks: Vec<Walk<'a>>,
}

impl<'a> Model for Stream<'a> {
    ghost use Rattle.std.specs.Prelude.{ℕ, List};
    ghost use Rattle.search_plans.specs.Streams.{together};
    ghost use Rattle.dir_index.specs.private.Postings.{AreRising};

    ghost Value = { List ℕ };

    ghost view = { λ s. together s.walks.items };

    ghost invariant = { λ s. AreRising s.walks.items };
}

/// The smaller of a number that was found and the one that comes next in a walk.
fn smaller(best: Option<u64>, walk: &Walk) -> Option<u64>
    ensures { result ≡ lesser best walk.now }
{
    match walk.head() {
        None => best,
        Some(first) => match best {
            Some(best) if first >= best => Some(best),
            _ => Some(first),
        },
    }
}

/// The smallest number that comes next.
fn least_head(walks: &[Walk]) -> Option<u64>
    ensures { IsLeastHead result walks.now }
{
    let mut best = None;
    for walk in walks {
        best = smaller(best, walk);
    }
    best
}

/// Takes the number off each walk in which it comes next.
fn skip(walks: &mut Vec<Walk>, number: u64)
    ensures { walks.new.items ≡ map (left_behind number) walks.old.items }
{
    for walk in walks.iter_mut() {
        walk.pass(number);
    }
}

impl<'a> Stream<'a> {
    /// The walks as one.
    pub(crate) fn new(walks: Vec<Walk<'a>>) -> Stream<'a>
        requires { AreRising walks.items }
        ensures { result ≡ together walks.entry.items }
    {
        Stream { walks }
    }

    /// Whether there are several walks.
    pub(crate) fn is_of_several(&self) -> bool {
        self.walks.len() > 1
    }

    /// Numbers that come next, each in a walk of its own; of many walks, some.
    pub(crate) fn heads(&self, alloc: Global) -> Result<Vec<u64>, AllocError> {
        let count = self.walks.len().min(MOST_HEADS);
        let mut heads = Vec::with_capacity(alloc, count)?;
        for walk in &self.walks[..count] {
            if let Some(number) = walk.head() {
                heads.push(number)?;
            }
        }
        Ok(heads)
    }

    /// The next number.
    pub fn next(&mut self) -> Option<u64>
        ensures { MatchOption result ((self.old ≡ []) × (self.new ≡ [])) (λ n. self.old ≡ n ∷ self.new) }
    {
        match least_head(&self.walks) {
            Some(number) => {
                skip(&mut self.walks, number);
                Some(number)
            }
            None => None,
        }
    }
}
