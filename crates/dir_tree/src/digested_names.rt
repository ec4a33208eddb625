// Relative names with digests: the keys of the maps below entries, and what a look-up seeks there. A node of the map
// holds the digests of its keys, so a look-up reads a relative name in other memory only where digests are equal.

ghost use Rattle.std.specs.Prelude.{◌≡◌, Some, refl};
ghost use Rattle.std.specs.Cmp.{partial_equiv_from_equiv, partial_order_from_agreeing_total};
ghost use Rattle.dir_entry.specs.ldap_dn.Names.{are_same_keys};
ghost use Rattle.dir_entry.specs.ldap_dn.OrderLaws.{rdn_equiv};
ghost use Rattle.dir_tree.specs.Digests.{digested_order};
ghost use Rattle.dir_tree.specs.DigestLaws.{digested_total, digested_ties};

use crate::shared_names::SharedRdn;
use dir_entry::{Rdn, Shared, Sought};
use std::alloc::AllocError;
use std::cmp::Ordering;
use std::marker::Model;

/// A relative name with its digest; a contract sees the relative name.
pub struct DigestedRdn {
    digest: u64,
    rdn: SharedRdn,
}

// Not derived: see "What the gate takes" in docs/ARCHITECTURE.md.
impl Drop for DigestedRdn {
    fn drop(self) {
        let DigestedRdn { digest: _, rdn: _ } = self;
    }
}

impl Model for DigestedRdn {
    ghost use Rattle.std.specs.Prelude.{◌≡◌};
    ghost use Rattle.dir_entry.specs.ldap_dn.Names.{RdnModel};
    ghost use Rattle.dir_entry.specs.ldap_dn.Digests.{digest_of};

    ghost Value = { RdnModel };

    ghost view = { λ d. d.rdn };

    ghost invariant = { λ d. d.digest ≡ digest_of d.rdn.keys };
}

impl DigestedRdn {
    /// This relative name, with its digest. Takes no memory.
    pub fn new(rdn: SharedRdn) -> DigestedRdn
        ensures { result ≡ rdn }
    {
        let digest = rdn.get().digest();
        DigestedRdn { digest, rdn }
    }
}

impl Shared for DigestedRdn {
    fn share(&self) -> Result<DigestedRdn, AllocError> {
        let rdn = self.rdn.share()?;
        Ok(DigestedRdn {
            digest: self.digest,
            rdn,
        })
    }

    fn most_in_leaf() -> usize {
        16
    }

    fn mostly_rises() -> bool {
        false
    }
}

impl PartialEq for DigestedRdn {
    ghost eq = { λ a b. are_same_keys a.keys b.keys };

    ghost laws = { partial_equiv_from_equiv rdn_equiv };

    fn eq(&self, other: &DigestedRdn) -> bool {
        *self.rdn.get() == *other.rdn.get()
    }
}

impl Eq for DigestedRdn {
    ghost laws = { rdn_equiv };
}

impl PartialOrd for DigestedRdn {
    ghost partial_cmp = { λ a b. Some (digested_order a b) };

    ghost laws = { partial_order_from_agreeing_total digested_order digested_total (λ x y. refl) digested_ties };

    fn partial_cmp(&self, other: &DigestedRdn) -> Option<Ordering> {
        Some(self.cmp(other))
    }
}

impl Ord for DigestedRdn {
    ghost cmp = { digested_order };

    ghost total = { digested_total };

    ghost matches_partial_cmp = { λ x y. refl };

    ghost matches_eq = { digested_ties };

    fn cmp(&self, other: &DigestedRdn) -> Ordering {
        match self.digest.cmp(&other.digest) {
            Ordering::Equal => self.rdn.get().cmp(other.rdn.get()),
            order => order,
        }
    }
}

/// A relative name that is sought, with its digest, so that a look-up digests it once. A contract sees the relative
/// name.
pub struct SoughtRdn<'a> {
    digest: u64,
    rdn: &'a Rdn,
}

// Not derived: see "What the gate takes" in docs/ARCHITECTURE.md.
impl<'a> Drop for SoughtRdn<'a> {
    fn drop(self) {
        let SoughtRdn { digest: _, rdn: _ } = self;
    }
}

impl<'a> Model for SoughtRdn<'a> {
    ghost use Rattle.std.specs.Prelude.{◌≡◌};
    ghost use Rattle.dir_entry.specs.ldap_dn.Names.{RdnModel};
    ghost use Rattle.dir_entry.specs.ldap_dn.Digests.{digest_of};

    ghost Value = { RdnModel };

    ghost view = { λ s. s.rdn.now };

    ghost invariant = { λ s. s.digest ≡ digest_of s.rdn.now.keys };
}

impl<'a> SoughtRdn<'a> {
    /// This relative name, with its digest. Takes no memory.
    pub fn new(rdn: &'a Rdn) -> SoughtRdn<'a>
        ensures { result ≡ rdn.now }
    {
        SoughtRdn {
            digest: rdn.digest(),
            rdn,
        }
    }
}

impl<'a> Sought<DigestedRdn> for SoughtRdn<'a> {
    ghost key = { λ s. s };

    fn compare(&self, other: &DigestedRdn) -> Ordering {
        match self.digest.cmp(&other.digest) {
            Ordering::Equal => self.rdn.cmp(other.rdn.get()),
            order => order,
        }
    }
}
