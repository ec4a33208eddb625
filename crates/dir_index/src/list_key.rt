// The keys of posting lists. Plain data.

use index_choice::{Octets, TypeId};

// The kinds of index in the order of the lists: what is asked of a type alone, its values in order,
// runs of octets. A range of values is then one walk.
pub const PRESENCE: u8 = 0;

pub const SEVERAL: u8 = 1;

pub const VALUE: u8 = 2;

pub const RUN: u8 = 3;

/// The key of a posting's list: what the posting says, with octets that are cheap to share, so that
/// a leaf of the map is copied without memory for each of its keys.
pub struct ListKey {
    /// The number of the type. In half a word it fills one with the rank.
    pub type_id: u32,
    /// The place of the kind of index among the kinds.
    pub rank: u8,
    pub octets: Octets,
}

const _: () = prove!(size_of::<ListKey>() == 32);

// Not derived: see "What the gate takes" in docs/ARCHITECTURE.md.
impl Drop for ListKey {
    fn drop(self) {
        let ListKey {
            type_id: _,
            rank: _,
            octets: _,
        } = self;
    }
}

/// What stands for such a key, with octets that stand elsewhere.
#[derive(Clone, Copy)]
pub struct BorrowedKey<'a> {
    pub type_id: TypeId,
    pub rank: u8,
    pub octets: &'a [u8],
}
