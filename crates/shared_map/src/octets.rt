//! Octet strings that are cheap to share: short ones stand in the value itself, long ones have owners in common.
ghost use Rattle.std.specs.Prelude.{◌≡◌, ◌≤◌, length, IfOk, Some, refl};
ghost use Rattle.std.specs.Cmp.{partial_equiv_from_equiv, partial_order_from_agreeing_total};
ghost use Rattle.std.specs.Cmp.Lexicographic.{slice_cmp, nat_list_cmp_total, texts_ties};
ghost use Rattle.std.specs.Ordering.{nat_cmp};
ghost use Rattle.std.specs.Str.{bytes_eq};
ghost use Rattle.shared_map.specs.OctetLaws.{octets_equiv};

use crate::shared::Shared;
use std::alloc::{AllocError, Global};
use std::cmp::Ordering;
use std::marker::Model;
use std::sync::Arc;

/// As many octets need no memory of their own: with their count and which form it is they fill three words.
pub const ROOM: usize = 22;

#[derive(Drop)]
enum Held {
    // How many of the octets count.
    Short(u8, [u8; ROOM]),
    Long(Arc<Vec<u8>>),
}

/// An octet string. Contracts see the octets.
pub struct Octets {
    held: Held,
}

// Not derived, so that a crate above that owns one need not lay it out.
impl Drop for Octets {
    fn drop(self) {
        let Octets { held: _ } = self;
    }
}

impl Model for Octets {
    ghost use Rattle.std.specs.Prelude.{ℕ, List};
    ghost use Rattle.shared_map.specs.Held.{octets_in};
    ghost use Rattle.shared_map.specs.private.Held.{IsWithinRoom};

    ghost Value = { List ℕ };

    ghost view = { λ a. octets_in a.held };

    ghost invariant = { λ a. IsWithinRoom a.held };
}

const _: () = prove!(size_of::<Octets>() == 24);

fn short(octets: &[u8]) -> Octets
    requires { length octets.now ≤ ROOM }
    ensures { result ≡ octets.now }
{
    let count = octets.len();
    let mut room = [0; ROOM];
    room[..count].copy_from_slice(octets);
    Octets {
        held: Held::Short(count as u8, room),
    }
}

impl Octets {
    /// The octets; short ones take no memory.
    pub fn new(alloc: Global, octets: &[u8]) -> Result<Octets, AllocError>
        ensures { IfOk result (λ o. o ≡ octets.now) }
    {
        if octets.len() <= ROOM {
            return Ok(short(octets));
        }
        let all = Vec::from_slice(alloc, octets)?;
        Ok(Octets {
            held: Held::Long(Arc::new(alloc, all)?),
        })
    }

    /// The octets of a vector. Short ones are copied into the value and the vector is dropped; a longer one is kept
    /// without its spare room.
    pub fn from_vec(alloc: Global, mut octets: Vec<u8>) -> Result<Octets, AllocError>
        ensures { IfOk result (λ o. o ≡ octets.items) }
    {
        if octets.len() <= ROOM {
            return Ok(short(&octets));
        }
        octets.shrink_to_fit();
        Ok(Octets {
            held: Held::Long(Arc::new(alloc, octets)?),
        })
    }

    /// The octets.
    pub fn as_slice(&self) -> &[u8]
        ensures { result.now ≡ self.now }
    {
        match &self.held {
            Held::Short(count, room) => &room[..*count as usize],
            Held::Long(all) => all.as_slice(),
        }
    }
}

impl Shared for Octets {
    fn share(&self) -> Result<Octets, AllocError> {
        match &self.held {
            Held::Short(count, room) => Ok(Octets {
                held: Held::Short(*count, *room),
            }),
            Held::Long(all) => Ok(Octets {
                held: Held::Long(Arc::try_clone(all)?),
            }),
        }
    }

    fn most_in_leaf() -> usize {
        16
    }

    fn mostly_rises() -> bool {
        false
    }
}

impl PartialEq for Octets {
    ghost eq = { bytes_eq };

    ghost laws = { partial_equiv_from_equiv octets_equiv };

    fn eq(&self, other: &Octets) -> bool {
        self.as_slice() == other.as_slice()
    }
}

impl Eq for Octets {
    ghost laws = { octets_equiv };
}

impl PartialOrd for Octets {
    ghost partial_cmp = { λ x y. Some (slice_cmp nat_cmp x y) };

    ghost laws = { partial_order_from_agreeing_total (slice_cmp nat_cmp) nat_list_cmp_total (λ x y. refl) texts_ties };

    fn partial_cmp(&self, other: &Octets) -> Option<Ordering> {
        Some(self.cmp(other))
    }
}

impl Ord for Octets {
    ghost cmp = { slice_cmp nat_cmp };

    ghost total = { nat_list_cmp_total };

    ghost matches_partial_cmp = { λ x y. refl };

    ghost matches_eq = { texts_ties };

    fn cmp(&self, other: &Octets) -> Ordering {
        self.as_slice().cmp(other.as_slice())
    }
}
