// The pairs of a name, as evaluation asks for them: relative name by relative name, the last one first, as the names
// above it are kept.

ghost use Rattle.std.specs.Prelude.{◌≡◌, ◌++◌, ℕ, List, [], ◌∷◌, IfSome, length, slice_get};
ghost use Rattle.std.specs.Option.{option_map};
ghost use Rattle.dir_entry.specs.ldap_dn.Names.{RdnModel};

use dir_entry::{Name, Rdn};

/// The types and values of the name of an entry, relative name by relative name. No call takes memory.
pub trait NamePairs {
    /// The name, root first.
    ghost name: { Self → List RdnModel };

    /// The name that has this number: itself, or one that it stands below.
    ghost named: { Self → ℕ → List RdnModel };

    /// The number of the name itself.
    fn number(&self) -> u64
        ensures { named self.now result ≡ name self.now };

    /// The number of the name right above the one of a number, and its last relative name; none, where it is to be read
    /// place by place.
    fn superior(&self, number: u64) -> Option<(u64, &Rdn)>
        ensures { IfSome result (λ p. named self.now number ≡ named self.now p.0 ++ p.1.now ∷ []) };

    /// How many relative names the name of a number has.
    fn count(&self, number: u64) -> usize
        ensures { result ≡ length (named self.now number) };

    /// The relative name at a place of the name of a number, whose pairs count as attributes (RFC 4511 4.5.1.7.7);
    /// none, past the end.
    fn pairs(&self, number: u64, at: usize) -> Option<&Rdn>
        ensures { option_map (λ r. r.now) result ≡ slice_get (named self.now number) at };
}

impl NamePairs for Name {
    ghost name = { λ n. n };

    ghost named = { λ n k. n };

    fn number(&self) -> u64 {
        0
    }

    fn superior(&self, _number: u64) -> Option<(u64, &Rdn)> {
        None
    }

    fn count(&self, _number: u64) -> usize {
        self.len()
    }

    fn pairs(&self, _number: u64, at: usize) -> Option<&Rdn> {
        self.rdns().get(at)
    }
}
