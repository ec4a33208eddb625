// Posting lists, as plans ask for them. A trait.

ghost use Rattle.std.specs.Prelude.{◌≡◌, ◌||◌, ℕ, map, IfOk, OnOk};
ghost use Rattle.dir_index.specs.Postings.{Lists, has_number};

use crate::posting::{Posting, Range};
use index_choice::NumberSet;
use std::alloc::AllocError;

/// What keeps posting lists.
pub trait PostingLists {
    ghost lists: { Self → Lists };

    /// The numbers of a posting, in rising order. It takes a look-up, and no memory.
    fn numbers(&self, posting: &Posting) -> &NumberSet
        ensures { result.now ≡ (lists self.now).posting posting.now };

    /// The same for each posting, in its place. The look-ups go on together; what they find takes memory.
    fn numbers_of_each(&self, postings: &[&Posting]) -> Result<Vec<&NumberSet>, AllocError>
        ensures { IfOk result (λ v. map (λ s. s.now) v.items ≡ map (λ p. (lists self.now).posting p.now) postings.now) };

    /// Whether an entry of this number has a value in the range. It costs a look-up and a test of each value of the
    /// range's type, and takes no memory.
    fn in_range(&self, range: &Range, number: u64) -> bool
        ensures { result ≡ has_number number ((lists self.now).range range.now) };

    /// Puts the numbers of a range behind those that are there, in any order, and some of them perhaps more than once.
    fn push_range(&self, range: &Range, into: &mut Vec<u64>) -> Result<(), AllocError>
        ensures { OnOk result ((n : ℕ) → has_number n into.new.items ≡ (has_number n into.old.items || has_number n
            ((lists self.now).range range.now))) };

    /// About how many numbers a range has. It takes no memory, and decides the cost of a run, never what it gives.
    fn about(&self, range: &Range) -> usize;
}
