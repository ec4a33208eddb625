// The order of the keys of lists, and look-ups by what stands for a key. It takes no memory.

ghost use Rattle.std.specs.Prelude.{◌≡◌, Some, refl};
ghost use Rattle.std.specs.Cmp.{partial_equiv_from_equiv, partial_order_from_agreeing_total};
ghost use Rattle.dir_index.specs.ListKeys.{key_of, list_order, is_same_list};
ghost use Rattle.dir_index.specs.OrderLaws.{list_equiv, list_total, list_ties};
ghost use Rattle.dir_index.specs.Places.{key_at};

use crate::list_key::{BorrowedKey, ListKey};
use crate::ordering::{octets, rank, type_number};
use crate::posting::Posting;
use index_choice::{Shared, Sought};
use std::alloc::AllocError;
use std::cmp::Ordering;

impl PartialEq for ListKey {
    ghost eq = { is_same_list };

    ghost laws = { partial_equiv_from_equiv list_equiv };

    fn eq(&self, other: &ListKey) -> bool {
        self.type_id == other.type_id && (self.rank == other.rank && self.octets == other.octets)
    }
}

impl Eq for ListKey {
    ghost laws = { list_equiv };
}

impl PartialOrd for ListKey {
    ghost partial_cmp = { λ x y. Some (list_order x y) };

    ghost laws = { partial_order_from_agreeing_total list_order list_total (λ x y. refl) list_ties };

    fn partial_cmp(&self, other: &ListKey) -> Option<Ordering> {
        Some(self.cmp(other))
    }
}

impl Ord for ListKey {
    ghost cmp = { list_order };

    ghost total = { list_total };

    ghost matches_partial_cmp = { λ x y. refl };

    ghost matches_eq = { list_ties };

    fn cmp(&self, other: &ListKey) -> Ordering {
        match self.type_id.cmp(&other.type_id) {
            Ordering::Equal => match self.rank.cmp(&other.rank) {
                Ordering::Equal => self.octets.cmp(&other.octets),
                order => order,
            },
            order => order,
        }
    }
}

impl Shared for ListKey {
    fn share(&self) -> Result<ListKey, AllocError> {
        let octets = self.octets.share()?;
        Ok(ListKey {
            type_id: self.type_id,
            rank: self.rank,
            octets,
        })
    }

    fn most_in_leaf() -> usize {
        16
    }

    fn mostly_rises() -> bool {
        false
    }
}

impl<'a> Sought<ListKey> for BorrowedKey<'a> {
    ghost key = { key_at };

    fn compare(&self, other: &ListKey) -> Ordering {
        match self.type_id.number().cmp(&(other.type_id as usize)) {
            Ordering::Equal => match self.rank.cmp(&other.rank) {
                Ordering::Equal => self.octets.cmp(other.octets.as_slice()),
                order => order,
            },
            order => order,
        }
    }
}

impl<'a> Sought<ListKey> for &'a Posting {
    ghost key = { λ p. key_of p.now };

    fn compare(&self, other: &ListKey) -> Ordering {
        let posting: &Posting = self;
        posting.compare(other)
    }
}

impl Sought<ListKey> for Posting {
    ghost key = { key_of };

    fn compare(&self, other: &ListKey) -> Ordering {
        match type_number(self).cmp(&(other.type_id as usize)) {
            Ordering::Equal => match rank(self).cmp(&other.rank) {
                Ordering::Equal => octets(self).cmp(other.octets.as_slice()),
                order => order,
            },
            order => order,
        }
    }
}
