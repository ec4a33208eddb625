//! Keys of integers.

ghost use Rattle.std.specs.Prelude.{◌≡◌, IfOk};
ghost use Rattle.ldap_syntax.specs.Keys.{number_key as number_key_of, counted as counted_digits, turned as turned_octets};

use std::alloc::{AllocError, Global};

/// The octets of an integer's key: a sign, so many ones as there are digits and a zero, and the digits; of a negative
/// number every octet behind the sign is turned round. So byte order is the numbers' order.
pub fn number_key(alloc: Global, value: &[u8]) -> Result<Vec<u8>, AllocError>
    ensures { IfOk result (λ v. v.items ≡ number_key_of value.now) }
{
    match value {
        [] => Ok(Vec::new(alloc)),
        [first, rest @ ..] => {
            let mut key = Vec::new(alloc);
            if *first == b'-' {
                let digits = counted(alloc, rest)?;
                key.push(0)?;
                key.extend_from_slice(turned(alloc, digits.as_slice())?.as_slice())?;
            } else {
                key.push(1)?;
                key.extend_from_slice(counted(alloc, value)?.as_slice())?;
            }
            Ok(key)
        }
    }
}

/// Each octet turned round, so that the greatest comes first.
fn turned(alloc: Global, octets: &[u8]) -> Result<Vec<u8>, AllocError>
    ensures { IfOk result (λ v. v.items ≡ turned_octets octets.now) }
{
    octets.iter().map(|octet| 255 - *octet).collect(alloc)
}

/// So many ones as there are digits, a zero, and the digits.
fn counted(alloc: Global, digits: &[u8]) -> Result<Vec<u8>, AllocError>
    ensures { IfOk result (λ v. v.items ≡ counted_digits digits.now) }
{
    let mut out: Vec<u8> = digits.iter().map(|_| 1).collect(alloc)?;
    out.push(0)?;
    out.extend_from_slice(digits)?;
    Ok(out)
}
