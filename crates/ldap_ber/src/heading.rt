//! Reads the header of an element that may not be whole yet.

ghost use Rattle.std.specs.Prelude.{◌≡◌, ℕ, ◌↔◌, ◌++◌, List, length, IfOk, IsOkAnd, IsErrOf, Ok, Err};
ghost use Rattle.ldap_ber.specs.Header.{IsHeader, IsHeaderFault};
ghost use Rattle.ldap_ber.specs.private.Header.{header_at};
ghost use Rattle.ldap_ber.specs.private.Reading.{Gives};
ghost use Rattle.ldap_ber.specs.declared.fault.BerFault.{BerFault};

use crate::fault::BerFault;
use crate::reading::length_of;

fn header_of(octets: &[u8]) -> Result<(u8, u64, usize), BerFault>
    ensures { Gives (λ x. (x.0, x.1, x.2)) result (header_at octets.now) }
{
    match octets {
        [] => Err(BerFault::Short),
        [first, rest @ ..] => {
            if *first % 32 == 31 {
                return Err(BerFault::HighTag);
            }
            let (len, after) = length_of(rest)?;
            Ok((*first, len, octets.len() - after.len()))
        }
    }
}

/// The first octet, the stated length of the content and the count of octets of the header, before
/// any content is there. E1 only where the header itself is cut short.
pub fn header(octets: &[u8]) -> Result<(u8, u64, usize), BerFault>
    // What is read is a header.
    ensures found { IfOk result (λ x. (spelling rest : List ℕ) × IsHeader spelling x.0 x.1
        × (octets.now ≡ spelling ++ rest) × (x.2 ≡ length spelling)) }
    // A header is read, whatever follows it.
    ensures only { (spelling rest : List ℕ) (first n : ℕ) → IsHeader spelling first n
        → octets.now ≡ spelling ++ rest
        → IsOkAnd result (λ x. (x.0 ≡ first) × (x.1 ≡ n) × (x.2 ≡ length spelling)) }
    // Which fault it is.
    ensures fault { (f : BerFault) → IsErrOf result f ↔ IsHeaderFault f octets.now }
{
    header_of(octets)
}
