//! Reads octets as a number.

ghost use Rattle.std.specs.Prelude.{◌≡◌, ◌≤◌, ◌-◌, map, length};
ghost use Rattle.ldap_ber.specs.Number.{number};

/// The number that the octets spell, most significant first.
pub fn number(octets: &[u8]) -> u64
    requires { length octets.now ≤ 8 }
    ensures { result ≡ number octets.now }
{
    let mut n: u64 = 0;
    for octet in octets {
        n = n * 256 + *octet as u64;
    }
    n
}

/// The number that the octets spell when each of their bits is turned.
pub fn complement(octets: &[u8]) -> u64
    requires { length octets.now ≤ 8 }
    ensures { result ≡ number (map (λ b. 255 - b) octets.now) }
{
    let mut n: u64 = 0;
    for octet in octets {
        n = n * 256 + (255 - *octet) as u64;
    }
    n
}
