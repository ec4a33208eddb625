//! Digests of relative names: numbers that tell most of them apart, so that a map compares numbers that it holds.

ghost use Rattle.std.specs.Prelude.{◌≡◌, ◌∷◌, []};
ghost use Rattle.ldap_dn.specs.Digests.{digest_of, digest_on as digest_with_numbers};

use crate::rdn::{Rdn, TypeAndKey};

/// 2^64 divided by the golden ratio: it is odd, and its powers spread octets over all 64 bits.
const MULTIPLIER: u64 = 0x9E37_79B9_7F4A_7C15;

/// A digest with one number more.
fn digest_next(digest: u64, number: u64) -> u64
    ensures { result ≡ digest_with_numbers digest (number ∷ []) }
{
    digest.wrapping_mul(MULTIPLIER).wrapping_add(number)
}

/// A digest with octets more: one multiplication and one addition an octet.
fn digest_octets(start: u64, octets: &[u8]) -> u64
    ensures { result ≡ digest_with_numbers start octets.now }
{
    let mut digest = start;
    for octet in octets {
        digest = digest_next(digest, *octet as u64);
    }
    digest
}

/// A digest with a type and its key more.
fn digest_key(start: u64, key: &TypeAndKey) -> u64
    ensures { result ≡ digest_with_numbers start (key.now.kind ∷ key.now.key) }
{
    let typed = digest_next(start, key.type_id.number() as u64);
    digest_octets(typed, key.key.as_octets())
}

impl Rdn {
    /// The digest of its types and keys: two that are one relative name have the same, and most others don't.
    pub fn digest(&self) -> u64
        ensures { result ≡ digest_of self.now.keys }
    {
        let mut digest = 0;
        for key in self.keys.as_slice() {
            digest = digest_key(digest, key);
        }
        digest
    }
}
