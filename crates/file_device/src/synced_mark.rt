//! Notes in the first block of a journal's file up to where the journal was synced, and reads it: a journal whose
//! frames end before that is damaged, and isn't one whose end was torn.
ghost use Rattle.std.specs.Prelude.{◌≡◌, IfSome};
ghost use Rattle.file_device.specs.private.Heads.{numeral, sum_of};
ghost use Rattle.file_device.specs.private.Marks.{IsMarked};

use crate::heads::{number_at, numeral, sum_of};

/// Where the mark is, behind the head, in a sector of its own.
pub const MARK_AT: usize = 512;

/// How many octets the head and the mark take, with what is between them.
pub const FRONT: usize = 528;

/// Where the sum of a mark is.
pub const SUM_AT: usize = 520;

/// The octets of a mark: a number, and the first eight octets of its SHA-256.
pub fn mark_of(synced: u64) -> ([u8; 8], [u8; 8])
    ensures number { result.0 ≡ numeral synced }
    ensures sum { result.1 ≡ sum_of (numeral synced) }
{
    let number = numeral(synced);
    let sum = sum_of(&number);
    (number, sum)
}

/// Up to where a journal was synced whose first block this is, as far as it says: a mark that is torn says nothing.
pub fn mark_in(front: &[u8]) -> Option<u64>
    ensures { IfSome result (λ synced. IsMarked synced front.now) }
{
    if front.len() < FRONT {
        return None;
    }
    let synced = number_at(front, MARK_AT);
    let (number, sum) = mark_of(synced);
    let found_number = &front[MARK_AT..SUM_AT];
    let found_sum = &front[SUM_AT..FRONT];
    if found_number == number.as_slice() && found_sum == sum.as_slice() {
        Some(synced)
    } else {
        None
    }
}
