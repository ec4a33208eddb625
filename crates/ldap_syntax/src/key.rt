//! A value's key.

ghost use Rattle.std.specs.Prelude.{◌≡◌, ◌≤◌, length, IfOk};
ghost use Rattle.std.specs.Str.{bytes_eq};
ghost use Rattle.ldap_syntax.specs.Meaning.{is_before as is_before_octets};

use std::alloc::{AllocError, Global};
use std::marker::Model;

/// So many octets need no memory of their own: with their count, and which form it is, they fill four words.
const ROOM: usize = 30;

enum KeyStorage {
    /// How many of the octets count.
    Short(u8, [u8; ROOM]),
    Long(Vec<u8>),
}

// Not derived: see "What the gate takes" in docs/ARCHITECTURE.md.
impl Drop for KeyStorage {
    fn drop(self) {
        match self {
            KeyStorage::Short(_, _) => {}
            KeyStorage::Long(_) => {}
        }
    }
}

/// The key of a value under a rule: two keys of one rule are equal, and stand in byte order, as the meanings of their
/// values are and do. A short one needs no memory of its own.
pub struct Key {
    held: KeyStorage,
}

const _: () = prove!(size_of::<Key>() == 32);

// Not derived: see "What the gate takes" in docs/ARCHITECTURE.md.
impl Drop for Key {
    fn drop(self) {
        let Key { held: _ } = self;
    }
}

impl Model for Key {
    ghost use Rattle.std.specs.Prelude.{ℕ, List};
    ghost use Rattle.ldap_syntax.specs.KeyOctets.{octets_in};
    ghost use Rattle.ldap_syntax.specs.private.KeyOctets.{IsWithinRoom};

    ghost Value = { List ℕ };

    ghost view = { λ k. octets_in k.held };

    ghost invariant = { λ k. IsWithinRoom k.held };
}

/// No octets; it is where a list that holds few keys in place has none.
impl Default for Key {
    ghost use Rattle.std.specs.Prelude.{◌≡◌, []};

    ghost is_default = { λ k. k ≡ [] };

    fn default() -> Key {
        Key {
            held: KeyStorage::Short(0, [0; ROOM]),
        }
    }
}

/// The key of so few octets.
fn short(octets: &[u8]) -> Key
    requires { length octets.now ≤ ROOM }
    ensures { result ≡ octets.now }
{
    let count = octets.len();
    let mut room = [0; ROOM];
    room[..count].copy_from_slice(octets);
    Key {
        held: KeyStorage::Short(count as u8, room),
    }
}

impl Key {
    /// The key of these octets, as a rule gives them. Takes no memory.
    pub fn new(octets: Vec<u8>) -> Key
        ensures { result ≡ octets.items }
    {
        if octets.len() <= ROOM {
            return short(octets.as_slice());
        }
        Key {
            held: KeyStorage::Long(octets),
        }
    }

    /// The key of these octets, which are copied. Its only error is want of memory.
    pub fn from_slice(alloc: Global, octets: &[u8]) -> Result<Key, AllocError>
        ensures { IfOk result (λ k. k ≡ octets.now) }
    {
        if octets.len() <= ROOM {
            return Ok(short(octets));
        }
        Ok(Key {
            held: KeyStorage::Long(Vec::from_slice(alloc, octets)?),
        })
    }

    /// A copy. Its only error is want of memory.
    pub fn copy(&self, alloc: Global) -> Result<Key, AllocError>
        ensures { IfOk result (λ k. k ≡ self.now) }
    {
        Key::from_slice(alloc, self.as_octets())
    }

    /// The octets of the key, least significant last.
    pub fn as_octets(&self) -> &[u8]
        ensures { result.now ≡ self.now }
    {
        match &self.held {
            KeyStorage::Short(count, room) => &room[..*count as usize],
            KeyStorage::Long(octets) => octets.as_slice(),
        }
    }

    /// Whether two keys are equal.
    pub fn is_same(&self, other: &Key) -> bool
        ensures { result ≡ bytes_eq self.now other.now }
    {
        self.as_octets() == other.as_octets()
    }

    /// Whether this key stands before the other in byte order.
    pub fn is_before(&self, other: &Key) -> bool
        ensures { result ≡ is_before_octets self.now other.now }
    {
        self.as_octets() < other.as_octets()
    }
}
