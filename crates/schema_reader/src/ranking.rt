// Ranks of classes by a walk up: classes that lead to each other get one rank, and a class gets a greater one than the
// others that it leads to. The walk is trusted with nothing: what it finds is tested.

use ldap_schema::{ClassId, ObjectClass, superclasses_of};
use std::alloc::{AllocError, Global};

/// What is still to be done in a walk up from all classes, which are named by their numbers.
#[derive(Clone, Copy)]
enum Step {
    /// Go up from a class, unless that was done.
    Enter(usize),
    /// All superclasses of a class were gone up from.
    Leave(usize),
}

/// A walk up. Its steps are counted from 1.
#[derive(Drop)]
struct Walk {
    /// Of each class the step that entered it; 0 before that.
    entered: Vec<usize>,
    /// Of each class the first step that is known to have entered a class that it leads to, among those without a rank.
    earliest: Vec<usize>,
    /// Of each class its rank; 0 before that.
    ranks: Vec<usize>,
    /// The classes that were entered and have no rank, the last one last.
    unranked: Vec<usize>,
    /// What is to be done, the next one last.
    steps: Vec<Step>,
}

/// The number at a place; 0, where there is no such place.
fn number_at(numbers: &[usize], place: usize) -> usize {
    match numbers.get(place) {
        Some(number) => *number,
        None => 0,
    }
}

/// Puts a number at a place.
fn put(numbers: &mut Vec<usize>, place: usize, number: usize) {
    if place < numbers.len() {
        numbers[place] = number;
    }
}

impl Walk {
    /// The walk that enters each of so many classes.
    fn begin(alloc: Global, count: usize) -> Result<Walk, AllocError> {
        let entered = vec![in alloc; 0; count]?;
        let earliest = vec![in alloc; 0; count]?;
        let ranks = vec![in alloc; 0; count]?;
        let mut steps = Vec::new(alloc);
        for number in 0..count {
            steps.push(Step::Enter(number))?;
        }
        Ok(Walk {
            entered,
            earliest,
            ranks,
            unranked: Vec::new(alloc),
            steps,
        })
    }

    /// Goes up from a class, unless that was done: to its direct superclasses, and then it is left.
    fn enter(
        &mut self,
        classes: &[ObjectClass],
        number: usize,
        step: usize,
    ) -> Result<(), AllocError> {
        if number_at(self.entered.as_slice(), number) > 0 {
            return Ok(());
        }
        put(&mut self.entered, number, step);
        put(&mut self.earliest, number, step);
        self.unranked.push(number)?;
        self.steps.push(Step::Leave(number))?;
        for above in superclasses_of(classes, ClassId::new(number)) {
            self.steps.push(Step::Enter(above.number()))?;
        }
        Ok(())
    }

    /// The earlier one of a step and of that of a class without a rank.
    fn earlier(&self, step: usize, above: ClassId) -> usize {
        let other = number_at(self.earliest.as_slice(), above.number());
        if number_at(self.ranks.as_slice(), above.number()) == 0 && other < step {
            other
        } else {
            step
        }
    }

    /// The earliest one of the steps of a class and of its superclasses without a rank.
    fn earliest_above(&self, classes: &[ObjectClass], number: usize) -> usize {
        let mut step = number_at(self.earliest.as_slice(), number);
        for above in superclasses_of(classes, ClassId::new(number)) {
            step = self.earlier(step, *above);
        }
        step
    }

    /// Gives a rank to the classes without one that were entered since a class was, itself included.
    fn rank_since(&mut self, number: usize, rank: usize) {
        for _at in 0..self.unranked.len() {
            match self.unranked.pop() {
                None => return,
                Some(member) => {
                    put(&mut self.ranks, member, rank);
                    if member == number {
                        return;
                    }
                }
            }
        }
    }

    /// Leaves a class. If it leads to none that was entered earlier, those without a rank since then lead to it, and
    /// get their rank with it.
    fn leave(&mut self, classes: &[ObjectClass], number: usize, step: usize) {
        let earliest = self.earliest_above(classes, number);
        put(&mut self.earliest, number, earliest);
        if earliest == number_at(self.entered.as_slice(), number) {
            self.rank_since(number, step);
        }
    }
}

/// How many steps a walk takes at most: each class and each direct superclass is entered, each class is left.
fn count_of_steps(classes: &[ObjectClass]) -> usize {
    let mut count = classes.len().saturating_mul(2);
    for class in classes {
        count = count.saturating_add(class.superiors().len());
    }
    count
}

/// Of each class a rank: the number of the step by which a walk up has left the first one of the classes that it leads
/// to and that lead to it.
pub fn ranks_of(alloc: Global, classes: &[ObjectClass]) -> Result<Vec<usize>, AllocError> {
    let mut walk = Walk::begin(alloc, classes.len())?;
    for before in 0..count_of_steps(classes) {
        let step = before.saturating_add(1);
        match walk.steps.pop() {
            None => return Ok(walk.ranks),
            Some(Step::Enter(number)) => walk.enter(classes, number, step)?,
            Some(Step::Leave(number)) => walk.leave(classes, number, step),
        }
    }
    Ok(walk.ranks)
}
