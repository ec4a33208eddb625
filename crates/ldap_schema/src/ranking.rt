//! Ranks of classes. How ranks are found is trusted with nothing: they are tested.

ghost use Rattle.std.specs.Prelude.{◌≡◌, ◌<◌, IsTrue, ℕ, true, nat_lt};
ghost use Rattle.std.specs.List.{list_all};
ghost use Rattle.ldap_schema.specs.Lines.{rank_in};
ghost use Rattle.ldap_schema.specs.private.Lines.{IsRanking};

use crate::class::{ClassId, ObjectClass};
use crate::lines::rank_of;
use crate::superclasses::superclasses_of;
use std::alloc::{AllocError, Global};

/// What is still to be done in a walk up from all classes, which are named by their numbers.
#[derive(Clone, Copy, Debug, PartialEq, Eq)]
enum Step {
    /// Go up from a class, unless that was done.
    Enter(usize),
    /// All superclasses of a class have their ranks: it is next.
    Leave(usize),
}

/// A walk up: which classes were entered, what is to be done last first, and the ranks so far.
#[derive(Drop)]
struct Walk {
    entered: Vec<bool>,
    steps: Vec<Step>,
    ranks: Vec<usize>,
}

impl Walk {
    /// The walk that enters each of so many classes.
    fn begin(alloc: Global, count: usize) -> Result<Walk, AllocError> {
        let entered = vec![in alloc; false; count]?;
        let ranks = vec![in alloc; 0; count]?;
        let mut steps = Vec::new(alloc);
        for number in 0..count {
            steps.push(Step::Enter(number))?;
        }
        Ok(Walk {
            entered,
            steps,
            ranks,
        })
    }

    /// Whether the class is entered for the first time, which it is from now on.
    fn is_first(&mut self, number: usize) -> bool {
        if number < self.entered.len() {
            let was_entered = self.entered[number];
            self.entered[number] = true;
            return !was_entered;
        }
        false
    }

    /// Goes up from a class: to its direct superclasses, and then it is left.
    fn enter(&mut self, classes: &[ObjectClass], number: usize) -> Result<(), AllocError> {
        if !self.is_first(number) {
            return Ok(());
        }
        self.steps.push(Step::Leave(number))?;
        for above in superclasses_of(classes, ClassId::new(number)) {
            self.steps.push(Step::Enter(above.number()))?;
        }
        Ok(())
    }

    /// Gives a class its rank.
    fn leave(&mut self, number: usize, rank: usize) {
        if number < self.ranks.len() {
            self.ranks[number] = rank;
        }
    }
}

/// How many steps a walk takes at most: each class and each direct superclass is entered, each class is left.
fn count_of_steps(classes: &[ObjectClass]) -> usize {
    let mut count = classes.len().saturating_mul(2);
    for class in classes {
        count = count.saturating_add(class.superiors().len());
    }
    count
}

/// Of each class a rank: the number of the step by which a walk up has left it, which is after its superclasses.
pub fn ranks_of(alloc: Global, classes: &[ObjectClass]) -> Result<Vec<usize>, AllocError> {
    let mut walk = Walk::begin(alloc, classes.len())?;
    for rank in 0..count_of_steps(classes) {
        match walk.steps.pop() {
            None => return Ok(walk.ranks),
            Some(Step::Enter(number)) => walk.enter(classes, number)?,
            Some(Step::Leave(number)) => walk.leave(number, rank),
        }
    }
    Ok(walk.ranks)
}

/// Whether a class has a greater rank than these.
fn is_above_all(ranks: &[usize], class: ClassId, superclasses: &[ClassId]) -> bool
    ensures { result ≡ list_all (λ u. nat_lt (rank_in ranks.now u) (rank_in ranks.now class)) superclasses.now }
{
    let rank = rank_of(ranks, class);
    superclasses
        .iter()
        .all(|above| rank_of(ranks, *above) < rank)
}

/// Whether each class has a greater rank than its direct superclasses.
pub fn are_ranks(classes: &[ObjectClass], ranks: &[usize]) -> bool
    ensures { IsTrue result → IsRanking classes.now ranks.now }
{
    for number in 0..classes.len() {
        let class = ClassId::new(number);
        if !is_above_all(ranks, class, superclasses_of(classes, class)) {
            return false;
        }
    }
    true
}
