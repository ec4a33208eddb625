//! The order of relative names, by which they are keys of a map.

ghost use Rattle.std.specs.Prelude.{◌≡◌, ◌&&◌, Some, nat_eq, refl};
ghost use Rattle.std.specs.Str.{bytes_eq};
ghost use Rattle.std.specs.Cmp.{partial_equiv_from_equiv, partial_order_from_agreeing_total};
ghost use Rattle.ldap_dn.specs.Names.{are_same_keys as are_same_types_and_keys};
ghost use Rattle.ldap_dn.specs.Ordered.{key_order, rdn_order, EqualIsSame};
ghost use Rattle.ldap_dn.specs.OrderLaws.{key_equiv, key_total, key_ties, rdn_equiv, rdn_total, rdn_ties};

use crate::comparing::{are_same_keys, is_same_key};
use crate::rdn::{Rdn, TypeAndKey};
use std::cmp::Ordering;

impl PartialEq for TypeAndKey {
    ghost eq = { λ x y. (nat_eq x.kind y.kind && bytes_eq x.key y.key) };

    ghost laws = { partial_equiv_from_equiv key_equiv };

    fn eq(&self, other: &TypeAndKey) -> bool {
        is_same_key(self, other)
    }
}

impl Eq for TypeAndKey {
    ghost laws = { key_equiv };
}

impl PartialOrd for TypeAndKey {
    ghost partial_cmp = { λ x y. Some (key_order x y) };

    ghost laws = { partial_order_from_agreeing_total key_order key_total (λ x y. refl) key_ties };

    fn partial_cmp(&self, other: &TypeAndKey) -> Option<Ordering> {
        Some(self.cmp(other))
    }
}

impl Ord for TypeAndKey {
    ghost cmp = { key_order };

    ghost total = { key_total };

    ghost matches_partial_cmp = { λ x y. refl };

    ghost matches_eq = { key_ties };

    fn cmp(&self, other: &TypeAndKey) -> Ordering {
        match self.type_id.number().cmp(&other.type_id.number()) {
            Ordering::Equal => self.key.as_octets().cmp(other.key.as_octets()),
            order => order,
        }
    }
}

impl PartialEq for Rdn {
    ghost eq = { λ a b. are_same_types_and_keys a.keys b.keys };

    ghost laws = { partial_equiv_from_equiv rdn_equiv };

    fn eq(&self, other: &Rdn) -> bool {
        are_same_keys(self.keys.as_slice(), other.keys.as_slice())
    }
}

impl Eq for Rdn {
    ghost laws = { rdn_equiv };
}

impl PartialOrd for Rdn {
    ghost partial_cmp = { λ a b. Some (rdn_order a b) };

    ghost laws = { partial_order_from_agreeing_total rdn_order rdn_total (λ x y. refl) rdn_ties };

    fn partial_cmp(&self, other: &Rdn) -> Option<Ordering> {
        Some(self.cmp(other))
    }
}

impl Ord for Rdn {
    ghost cmp = { rdn_order };

    ghost total = { rdn_total };

    ghost matches_partial_cmp = { λ x y. refl };

    ghost matches_eq = { rdn_ties };

    fn cmp(&self, other: &Rdn) -> Ordering {
        self.keys.as_slice().cmp(other.keys.as_slice())
    }
}

/// Two relative names stand at one place in the order exactly where they are one name.
pub fn equal_is_same()
    ensures { EqualIsSame }
{}
