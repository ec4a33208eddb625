//! Compares octets without regard to case.

ghost use Rattle.std.specs.Prelude.{◌≡◌, map, IfOk};
ghost use Rattle.std.specs.Char.{to_ascii_lowercase};
ghost use Rattle.ldap_words.specs.NameOrder.{order};

use std::alloc::{AllocError, Global};
use std::cmp::Ordering;

/// The octets with ASCII letters in lower case. Fails only for want of memory.
pub fn lower_case(alloc: Global, octets: &[u8]) -> Result<Vec<u8>, AllocError>
    ensures { IfOk result (λ v. v.items ≡ map to_ascii_lowercase octets.now) }
{
    octets
        .iter()
        .map(|octet| octet.to_ascii_lowercase())
        .collect(alloc)
}

/// The kept octets against the asked ones in lower case: octet by octet, and octets before what they begin. No memory
/// is asked for.
pub fn compare_folded(kept: &[u8], asked: &[u8]) -> Ordering
    ensures { result ≡ order kept.now (map to_ascii_lowercase asked.now) }
{
    let mut rest = asked;
    for octet in kept {
        match rest.split_first() {
            Some((first, behind)) => {
                match octet.cmp(&first.to_ascii_lowercase()) {
                    Ordering::Equal => rest = behind,
                    unequal => return unequal,
                }
            }
            None => return Ordering::Greater,
        }
    }
    if rest.is_empty() {
        Ordering::Equal
    } else {
        Ordering::Less
    }
}
