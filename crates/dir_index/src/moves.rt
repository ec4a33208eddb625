// The postings that an entry leaves and joins where its attributes change.

ghost use Rattle.std.specs.Prelude.{◌≡◌, Bool, IfOk};
ghost use Rattle.dir_index.specs.declared.posting.Posting.{Posting};
ghost use Rattle.dir_index.specs.private.Marked.{has_posting, lists_entry};
ghost use Rattle.dir_index.specs.private.Touched.{AreSameElsewhere};
ghost use Rattle.dir_index.specs.private.Whole.{moved};

use crate::apart::marks_apart;
use crate::marks::{Marks, marks_of};
use crate::membership::marks_within;
use crate::touched::Touched;
use index_choice::{Attribute, Indexes};
use std::alloc::{AllocError, Global};

/// So many postings are looked for among the keys, each by itself; for more, all postings of both entries cost less.
const FEW: usize = 64;

/// Postings before and after a change. One that is in both or in neither stays as it is.
#[derive(Drop)]
pub struct Moves {
    pub was: Marks,
    pub is: Marks,
}

/// All postings before and after, but for those of types that aren't touched.
fn all_moves(
    alloc: Global,
    indexes: &Indexes,
    touched: &Touched<'_>,
    before: &[Attribute],
    after: &[Attribute],
) -> Result<Moves, AllocError>
    requires same { AreSameElsewhere touched.now before.now after.now }
    ensures { IfOk result (λ m. (p : Posting) (there : Bool) → moved (has_posting m.was.keys p)
        (has_posting m.is.keys p) there ≡ moved (lists_entry indexes.now before.now p)
        (lists_entry indexes.now after.now p) there) }
{
    let was = marks_of(alloc, indexes, touched, before)?;
    let is = marks_of(alloc, indexes, touched, after)?;
    Ok(Moves { was, is })
}

/// The postings before and after a change of attributes, of which those that stay as they are may be left out:
/// attributes that are the same on both sides, and keys that both have at the front or at the end, bring none.
/// Keys of types that aren't touched aren't looked at, and of named values these are looked for.
pub fn moves_between(
    alloc: Global,
    indexes: &Indexes,
    touched: &Touched<'_>,
    before: &[Attribute],
    after: &[Attribute],
) -> Result<Moves, AllocError>
    requires same { AreSameElsewhere touched.now before.now after.now }
    ensures { IfOk result (λ m. (p : Posting) (there : Bool) → moved (has_posting m.was.keys p)
        (has_posting m.is.keys p) there ≡ moved (lists_entry indexes.now before.now p)
        (lists_entry indexes.now after.now p) there) }
{
    if before.is_empty() || after.is_empty() {
        return all_moves(alloc, indexes, touched, before, after);
    }
    let apart = marks_apart(alloc, indexes, touched, before, after)?;
    if apart.len() > FEW {
        return all_moves(alloc, indexes, touched, before, after);
    }
    let was = marks_within(alloc, indexes, &apart, before)?;
    let is = marks_within(alloc, indexes, &apart, after)?;
    Ok(Moves { was, is })
}
