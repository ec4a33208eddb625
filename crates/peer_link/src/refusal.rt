//! What a start is told that isn't heard, since it remembers less than its replica said: the answer to its greeting.
ghost use Rattle.std.specs.Prelude.{◌≡◌, IfSome, Some};
ghost use Rattle.peer_link.specs.Refusals.{RefusalsAreRead, refusal_in, refusal_octets, spelled_octets};

use crate::past::{Forgotten, Reach};

/// The first octet of a refusal; an answer begins otherwise.
const REFUSED: u8 = 2;

/// A refusal of this kind, with two numbers.
fn spelled(kind: u8, one: u64, other: u64) -> [u8; 18]
    ensures { result ≡ spelled_octets kind one other }
{
    let [a, b, c, d, e, f, g, h] = one.to_be_bytes();
    let [i, j, k, l, m, n, o, p] = other.to_be_bytes();
    [
        REFUSED, kind, a, b, c, d, e, f, g, h, i, j, k, l, m, n, o, p,
    ]
}

/// What a start is told that doesn't remember this.
pub fn refusal_octets(forgotten: Forgotten) -> [u8; 18]
    ensures { result ≡ refusal_octets forgotten }
{
    match forgotten {
        Forgotten::Start { said } => spelled(0, said, 0),
        Forgotten::View { said } => spelled(1, said, 0),
        Forgotten::Log { said } => spelled(2, said.last_normal, said.length),
    }
}

/// What a start doesn't remember that is told so; nothing, where these octets are no refusal.
pub fn read_refusal(octets: [u8; 18]) -> Option<Forgotten>
    ensures { result ≡ refusal_in octets }
{
    let [first, kind, a, b, c, d, e, f, g, h, i, j, k, l, m, n, o, p] = octets;
    if first != REFUSED {
        return None;
    }
    let one = u64::from_be_bytes([a, b, c, d, e, f, g, h]);
    match kind {
        0 => Some(Forgotten::Start { said: one }),
        1 => Some(Forgotten::View { said: one }),
        2 => Some(Forgotten::Log {
            said: Reach {
                last_normal: one,
                length: u64::from_be_bytes([i, j, k, l, m, n, o, p]),
            },
        }),
        _ => None,
    }
}

/// A refusal is read as it was spelled.
pub fn refusals_are_read()
    ensures { RefusalsAreRead }
{}
