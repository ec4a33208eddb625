// Digests of octets: numbers that tell most octets apart.

ghost use Rattle.std.specs.Prelude.{◌≡◌, ◌∷◌, [], map};
ghost use Rattle.std.specs.List.{list_any};
ghost use Rattle.std.specs.Str.{bytes_eq};
ghost use Rattle.value_parts.specs.Digests.{digest_on, digest_of};

use ldap_match::Key;
use shared_map::Octets;
use std::marker::Model;

/// 2^64 divided by the golden ratio: it is odd, and its powers spread octets over all 64 bits.
const MULTIPLIER: u64 = 0x9E37_79B9_7F4A_7C15;

/// A digest with one octet more.
fn digest_next(digest: u64, octet: u8) -> u64
    ensures { result ≡ digest_on digest (octet ∷ []) }
{
    digest.wrapping_mul(MULTIPLIER).wrapping_add(octet as u64)
}

/// The digest of octets.
pub fn digest(octets: &[u8]) -> u64
    ensures { result ≡ digest_of octets.now }
{
    let mut digest = 0;
    for octet in octets {
        digest = digest_next(digest, *octet);
    }
    digest
}

/// Octets that are looked for, with their digest. Contracts see the octets.
pub struct SoughtOctets<'a> {
    digest: u64,
    octets: &'a [u8],
}

// Not derived: see "What the gate takes" in docs/ARCHITECTURE.md.
impl<'a> Drop for SoughtOctets<'a> {
    fn drop(self) {
        let SoughtOctets {
            digest: _,
            octets: _,
        } = self;
    }
}

impl<'a> Model for SoughtOctets<'a> {
    ghost use Rattle.std.specs.Prelude.{◌≡◌, ℕ, List};
    ghost use Rattle.value_parts.specs.Digests.{digest_of};

    ghost Value = { List ℕ };

    ghost view = { λ s. s.octets.now };

    ghost invariant = { λ s. s.digest ≡ digest_of s.octets.now };
}

impl<'a> SoughtOctets<'a> {
    /// These octets.
    pub fn new(octets: &'a [u8]) -> SoughtOctets<'a>
        ensures { result ≡ octets.now }
    {
        SoughtOctets {
            digest: digest(octets),
            octets,
        }
    }

    /// The octets.
    pub fn as_slice(&self) -> &'a [u8]
        ensures { result.now ≡ self.now }
    {
        self.octets
    }

    /// Whether a key has these octets. It is read only where its digest is the same.
    #[tactic(auto, using(crate::proofs::Digests::told_apart))]
    fn is_key(&self, digest: u64, key: &Key) -> bool
        requires { digest ≡ digest_of key.now }
        ensures { result ≡ bytes_eq self.now key.now }
    {
        if self.digest != digest {
            return false;
        }
        self.octets == key.as_octets()
    }

    /// Whether a value has these octets. It is read only where its digest is the same.
    #[tactic(auto, using(crate::proofs::Digests::told_apart))]
    fn is_value(&self, digest: u64, value: &Octets) -> bool
        requires { digest ≡ digest_of value.now }
        ensures { result ≡ bytes_eq self.now value.now }
    {
        if self.digest != digest {
            return false;
        }
        self.octets == value.as_slice()
    }

    /// Whether one of the keys has these octets.
    #[tactic(auto, using(crate::proofs::Digests::digest_at))]
    pub fn is_key_among(&self, digests: &[u64], keys: &[Key]) -> bool
        requires { digests.now ≡ map digest_of keys.now }
        ensures { result ≡ list_any (bytes_eq self.now) keys.now }
    {
        for i in 0..keys.len() {
            if self.is_key(digests[i], &keys[i]) {
                return true;
            }
        }
        false
    }

    /// Whether one of the values has these octets.
    #[tactic(auto, using(crate::proofs::Digests::digest_at))]
    pub fn is_value_among(&self, digests: &[u64], values: &[Octets]) -> bool
        requires { digests.now ≡ map digest_of values.now }
        ensures { result ≡ list_any (bytes_eq self.now) values.now }
    {
        for i in 0..values.len() {
            if self.is_value(digests[i], &values[i]) {
                return true;
            }
        }
        false
    }
}
