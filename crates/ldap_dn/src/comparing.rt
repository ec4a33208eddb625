//! Compares relative names.

ghost use Rattle.std.specs.Prelude.{◌≡◌, ◌&&◌, nat_eq};
ghost use Rattle.std.specs.Str.{bytes_eq};
ghost use Rattle.ldap_dn.specs.Names.{are_same_keys as are_same_types_and_keys, is_front as is_front_of, name_eq, rdns};

use crate::rdn::{Rdn, TypeAndKey};

/// Whether the types and the keys are the same.
pub fn is_same_key(a: &TypeAndKey, b: &TypeAndKey) -> bool
    ensures { result ≡ (nat_eq a.now.kind b.now.kind && bytes_eq a.now.key b.now.key) }
{
    a.type_id.number() == b.type_id.number() && a.key.is_same(&b.key)
}

/// Whether the lists of types and keys are the same.
pub fn are_same_keys(a: &[TypeAndKey], b: &[TypeAndKey]) -> bool
    ensures { result ≡ are_same_types_and_keys a.now b.now }
{
    let mut rest = b;
    for key in a {
        match rest.split_first() {
            Some((first, behind)) => {
                if !is_same_key(key, first) {
                    return false;
                }
                rest = behind;
            }
            None => return false,
        }
    }
    rest.is_empty()
}

/// Whether two names are one, whatever their spellings.
#[tactic(auto, using(crate::proofs::Fronts::same_rdns))]
pub fn are_same(a: &[Rdn], b: &[Rdn]) -> bool
    ensures { result ≡ name_eq (rdns a.now) (rdns b.now) }
{
    a == b
}

/// Whether the first list of relative names is the front of the second.
pub fn is_front(front: &[Rdn], whole: &[Rdn]) -> bool
    ensures { result ≡ is_front_of front.now whole.now }
{
    let mut rest = whole;
    for rdn in front {
        match rest.split_first() {
            Some((first, behind)) => {
                if !are_same_keys(rdn.keys.as_slice(), first.keys.as_slice()) {
                    return false;
                }
                rest = behind;
            }
            None => return false,
        }
    }
    true
}
