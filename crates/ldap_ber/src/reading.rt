//! Reads the element at the front of octets.

ghost use Rattle.std.specs.Prelude.{◌≡◌, ℕ, ◌↔◌, ◌++◌, List, length, IfOk, IfErr, IsOkAnd, IsErrOf, Ok, Err};
ghost use Rattle.ldap_ber.specs.Element.{IsElement};
ghost use Rattle.ldap_ber.specs.Reading.{IsFault};
ghost use Rattle.ldap_ber.specs.private.Reading.{length_at, element_at, Gives};
ghost use Rattle.ldap_ber.specs.declared.fault.BerFault.{BerFault};

use crate::fault::BerFault;
use crate::octets::number;
use crate::read_element::Element;

/// The length at the front, and the octets after it.
pub fn length_of(octets: &[u8]) -> Result<(u64, &[u8]), BerFault>
    ensures { Gives (λ x. (x.0, x.1.now)) result (length_at octets.now) }
{
    match octets {
        [] => Err(BerFault::Short),
        [short @ 0..0x80, rest @ ..] => Ok((*short as u64, rest)),
        [0x80, ..] => Err(BerFault::Indefinite),
        [0x85..=0xff, ..] => Err(BerFault::LengthTooLong),
        [count, rest @ ..] => {
            let count = (*count - 0x80) as usize;
            if rest.len() < count {
                return Err(BerFault::Short);
            }
            let (len, rest) = rest.split_at(count);
            Ok((number(len), rest))
        }
    }
}

fn element_of(octets: &[u8]) -> Result<(Element<'_>, &[u8]), BerFault>
    ensures { Gives (λ x. (x.0.first, x.0.content.now, x.1.now)) result (element_at octets.now) }
{
    match octets {
        [] => Err(BerFault::Short),
        [first, rest @ ..] => {
            if *first % 32 == 31 {
                return Err(BerFault::HighTag);
            }
            let (len, rest) = length_of(rest)?;
            if (rest.len() as u64) < len {
                return Err(BerFault::Short);
            }
            let (content, rest) = rest.split_at(len as usize);
            let first = *first;
            Ok((Element { first, content }, rest))
        }
    }
}

/// The element at the front, and the octets after it. Faults in the order of `BerFault`: E4, E1
/// for no length octet, E2, E3, E1 for what is missing (RFC 4511 5.1, X.690 8.1).
pub fn read(octets: &[u8]) -> Result<(Element<'_>, &[u8]), BerFault>
    // What is read is an element.
    ensures found { IfOk result (λ x. (spelling : List ℕ)
        × IsElement spelling x.0.first x.0.content.now × (octets.now ≡ spelling ++ x.1.now)) }
    // An element is read, whatever follows it.
    ensures only { (spelling content rest : List ℕ) (first : ℕ) → IsElement spelling first content
        → octets.now ≡ spelling ++ rest
        → IsOkAnd result (λ x. (x.0.first ≡ first) × (x.0.content.now ≡ content) × (x.1.now ≡ rest)) }
    // Which fault it is.
    ensures fault { (f : BerFault) → IsErrOf result f ↔ IsFault f octets.now }
{
    element_of(octets)
}

/// A spelling belongs to one element, and none begins another.
pub fn one_spelling()
    ensures { (a b x y c d : List ℕ) (f g : ℕ) → IsElement a f c → IsElement b g d
        → a ++ x ≡ b ++ y → (a ≡ b) × (f ≡ g) × (c ≡ d) }
{}
