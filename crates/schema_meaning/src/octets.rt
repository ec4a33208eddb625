// Keeps numbers by octets. A look-up takes as many steps as a logarithm of their count.

ghost use Rattle.std.specs.Prelude.{◌≡◌, ℕ, List, Some, cond, OnOk};
ghost use Rattle.std.specs.Str.{bytes_eq};
ghost use Rattle.schema_meaning.specs.private.Octets.{number_at, kept_or};

use std::alloc::AllocError;
use std::collections::BTreeMap;

/// Numbers by octets.
pub type Numbers = BTreeMap<Vec<u8>, usize>;

/// The number of these octets.
pub fn number_of(numbers: &Numbers, octets: &[u8]) -> Option<usize>
    ensures { result ≡ number_at numbers.now.entries octets.now }
{
    match numbers.get(octets) {
        Some(number) => Some(*number),
        None => None,
    }
}

/// The number becomes that of these octets.
pub fn put(numbers: &mut Numbers, octets: Vec<u8>, number: usize) -> Result<(), AllocError>
    ensures { OnOk result ((q : List ℕ) → number_at numbers.new.entries q ≡ cond (bytes_eq q octets.items)
        (Some number) (number_at numbers.old.entries q)) }
{
    numbers.insert(octets, number)?;
    Ok(())
}

/// The number becomes that of these octets, unless they have one.
#[tactic(auto, using(crate::proofs::Kept::stays, crate::proofs::Kept::comes))]
pub fn keep(numbers: &mut Numbers, octets: Vec<u8>, number: usize) -> Result<(), AllocError>
    ensures { OnOk result ((q : List ℕ) → number_at numbers.new.entries q ≡ kept_or (number_at numbers.old.entries q)
        (bytes_eq q octets.items) number) }
{
    match number_of(numbers, octets.as_slice()) {
        Some(_) => Ok(()),
        None => put(numbers, octets, number),
    }
}
