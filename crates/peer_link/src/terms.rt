//! The terms that the replicas of a cluster must share, as digests.
ghost use Rattle.std.specs.Prelude.{◌≡◌};
ghost use Rattle.peer_link.specs.Terms.{lent_text, terms_of, text_digest};

use sha2::{Digest, Sha256};

/// What the replicas of a cluster must have alike, each as the SHA-256 (FIPS 180-4) of its text.
#[derive(Clone, Copy)]
pub struct Terms {
    /// The schema; zeros for the built-in one.
    pub schema: [u8; 32],
    /// The suffix.
    pub suffix: [u8; 32],
    /// Where clients find the replicas, by index.
    pub clients: [u8; 32],
}

/// One of the terms.
#[derive(Clone, Copy, Debug, PartialEq, Eq)]
pub enum Term {
    Schema,
    Suffix,
    Clients,
}

/// The digest of a text, and zeros for none.
fn digest_of(text: Option<&str>) -> [u8; 32]
    ensures { result ≡ text_digest (lent_text text.entry) }
{
    match text {
        Some(text) => Sha256::digest(text),
        None => [0; 32],
    }
}

impl Terms {
    /// The terms of these texts: the file of the schema, where one is given, the suffix, and the addresses at which
    /// clients find the replicas.
    pub fn of(schema: Option<&str>, suffix: &str, clients: &str) -> Terms
        ensures { result ≡ terms_of (lent_text schema.entry) suffix.now clients.now }
    {
        Terms {
            schema: digest_of(schema),
            suffix: digest_of(Some(suffix)),
            clients: digest_of(Some(clients)),
        }
    }
}
