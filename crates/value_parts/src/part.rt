// Values of an attribute that are kept side by side.

use ldap_match::{Form, Key};
use shared_map::Octets;

/// Values of an attribute that are kept side by side, with the keys and the texts of them.
#[derive(Clone, Copy)]
pub struct Part<'a> {
    pub values: &'a [Octets],
    /// None, where the type of the values lacks an EQUALITY rule.
    pub keys: &'a [Key],
    pub forms: &'a [Form],
}
