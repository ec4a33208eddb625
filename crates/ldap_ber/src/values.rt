//! Reads the contents of integers and booleans.

ghost use Rattle.std.specs.Prelude.{◌≤◌, ◌↔◌, ℤ, Bool, length, IsTrue, IfOk, OnErr};
ghost use Rattle.ldap_ber.specs.Values.{IsInteger, IsMinimal, IsBoolean};

use crate::fault::{BadBoolean, BadInteger};
use crate::octets::{complement, number};

fn is_minimal(content: &[u8]) -> bool
    ensures { IsTrue result ↔ IsMinimal content.now }
{
    match content {
        [] => false,
        [_] => true,
        [first, second, ..] => {
            let zeros = *first == 0 && *second < 128;
            let ones = *first == 255 && *second >= 128;
            !zeros && !ones
        }
    }
}

/// The integer whose content this is, in two's complement (X.690 8.3); E5 where there is none.
pub fn integer(content: &[u8]) -> Result<i64, BadInteger>
    ensures found { IfOk result (IsInteger content.now) }
    ensures err { OnErr result ((z : ℤ) → IsInteger content.now z → ⊥) }
{
    if content.len() > 8 || !is_minimal(content) {
        return Err(BadInteger);
    }
    match content {
        [] => Err(BadInteger),
        [first, ..] => {
            if *first < 128 {
                Ok(number(content) as i64)
            } else {
                Ok(-1 - complement(content) as i64)
            }
        }
    }
}

/// The boolean whose content this is: any octet but zero is true (X.690 8.2); E6 where there is none.
pub fn boolean(content: &[u8]) -> Result<bool, BadBoolean>
    ensures found { IfOk result (IsBoolean content.now) }
    ensures err { OnErr result ((v : Bool) → IsBoolean content.now v → ⊥) }
{
    match content {
        [octet] => Ok(*octet != 0),
        _ => Err(BadBoolean),
    }
}
