//! Responses that are written, one after the other in one row of octets.
ghost use Rattle.std.specs.Prelude.{◌≡◌, ◌++◌, ◌∷◌, [], length, map, IfOk, OnOk};
ghost use Rattle.session_handler.specs.Rows.{joined, cut, total};

use smallvec::SmallVec;
use std::alloc::{AllocError, Global};
use std::marker::Model;

/// So many responses need no memory for their lengths.
const FEW: usize = 2;

/// The lengths of responses, in order.
pub type Lengths = SmallVec<usize, FEW>;

/// Responses, each written, one behind the other.
pub struct Responses {
    octets: Vec<u8>,
    lengths: Lengths,
}

// Not derived: see "What the gate takes" in docs/ARCHITECTURE.md.
impl Drop for Responses {
    fn drop(self) {
        let Responses {
            octets: _,
            lengths: _,
        } = self;
    }
}

impl Model for Responses {
    ghost use Rattle.std.specs.Prelude.{◌≡◌, ℕ, List, length};
    ghost use Rattle.session_handler.specs.Rows.{cut, total};

    ghost Value = { List (List ℕ) };

    ghost view = { λ r. cut r.lengths.items r.octets.items };

    ghost invariant = { λ r. total r.lengths.items ≡ length r.octets.items };
}

impl Responses {
    /// No response.
    pub(crate) fn none(alloc: Global) -> Responses
        ensures { result ≡ [] }
    {
        Responses {
            octets: Vec::new(alloc),
            lengths: SmallVec::new(alloc),
        }
    }

    /// One response, whose octets these are.
    pub(crate) fn one(alloc: Global, octets: Vec<u8>) -> Result<Responses, AllocError>
        ensures { IfOk result (λ r. r ≡ octets.items ∷ []) }
    {
        let mut lengths = SmallVec::new(alloc);
        lengths.push(octets.len())?;
        Ok(Responses { octets, lengths })
    }

    /// The responses of these lengths, whose octets these are.
    pub(crate) fn of(octets: Vec<u8>, lengths: Lengths) -> Responses
        requires { total lengths.items ≡ length octets.items }
        ensures { result ≡ cut lengths.items octets.items }
    {
        Responses { octets, lengths }
    }

    /// One more behind them, whose octets these are.
    pub(crate) fn and(self, octets: &[u8]) -> Result<Responses, AllocError>
        ensures { IfOk result (λ r. r ≡ self ++ octets.now ∷ []) }
    {
        let Responses {
            octets: mut all,
            mut lengths,
        } = self;
        all.extend_from_slice(octets)?;
        lengths.push(octets.len())?;
        Ok(Responses {
            octets: all,
            lengths,
        })
    }

    /// The octets of all, one after the other.
    pub fn octets(&self) -> &[u8]
        ensures { result.now ≡ joined self.now }
    {
        &self.octets
    }

    /// The same, by themselves.
    pub fn into_octets(self) -> Vec<u8>
        ensures { result.items ≡ joined self }
    {
        let Responses { octets, lengths: _ } = self;
        octets
    }

    /// The length of each, in order.
    pub fn lengths(&self) -> &[usize]
        ensures { result.now ≡ map length self.now }
    {
        self.lengths.as_slice()
    }
}
