//! A payload that is not read yet: borrowed octets.

use std::marker::Model;

/// Octets that lie in a frame.
#[derive(Drop)]
pub struct Octets<'a> {
    octets: &'a [u8],
}

impl<'a> Model for Octets<'a> {
    ghost use Rattle.std.specs.Prelude.{ℕ, List};

    ghost Value = { List ℕ };

    ghost view = { λ o. o.octets.now };
}

impl<'a> Octets<'a> {
    ghost use Rattle.std.specs.Prelude.{◌≡◌};

    pub fn new(octets: &'a [u8]) -> Octets<'a>
        ensures { result ≡ octets.now }
    {
        Octets { octets }
    }

    pub fn as_slice(&self) -> &'a [u8]
        ensures { result.now ≡ self.now }
    {
        self.octets
    }
}
