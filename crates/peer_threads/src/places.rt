//! Where replicas are found: their addresses. Plain data.
use peer_messages::Address;
use std::alloc::{AllocError, Global};

/// Where one replica is found.
#[derive(Clone, Copy)]
pub struct ReplicaAddresses<'a> {
    /// Where the other replicas find it.
    pub peer_address: Address<'a>,
    /// Where it hears clients.
    pub ldap_address: Address<'a>,
    /// The URI that clients are referred to; none for that of the address at which it hears them.
    pub uri: Option<&'a str>,
}

impl<'a> ReplicaAddresses<'a> {
    /// The URI that clients are referred to (RFC 4516).
    pub fn referral(&self, alloc: Global) -> Result<String, AllocError> {
        match self.uri {
            Some(uri) => String::from_str(alloc, uri),
            None => format!(in alloc; "ldap://{}", self.ldap_address),
        }
    }
}
