// The question that an item asks. Plain data.

use crate::naming_rules::How;
use dir_entry::TypeId;
use ldap_filter::SubstringFilter;

/// What an item asks of the attributes of its type and of the subtypes (RFC 4511 4.5.1.7).
#[derive(Clone, Copy)]
pub enum Asked<'a> {
    Presence,
    Equality(&'a [u8]),
    AtLeast(&'a [u8]),
    AtMost(&'a [u8]),
    Substrings(&'a SubstringFilter),
}

/// An extensible item whose rule and type are known (RFC 4511 4.5.1.7.7).
#[derive(Clone, Copy)]
pub struct KnownItem<'a> {
    pub how: How,
    pub asked_type: &'a Option<TypeId>,
    pub assertion: &'a [u8],
}
