//! Estimates from above what octets take in memory once they are messages: by their number, and of large ones by their
//! elements.
ghost use Rattle.std.specs.Prelude.{◌≡◌, ◌<◌, ◌≤◌, ◌+◌, min, length, IfSome};
ghost use Rattle.std.specs.Bool.{OnTrue, OnFalse};
ghost use Rattle.ldap_framer.specs.Weighing.{StatesMore};

use ldap_msg::header;

/// What is inside of an element with this bit is elements (X.690 8.1.2.5).
const CONSTRUCTED: u8 = 0x20;

/// What an element takes at most: a value of a message (24 octets), its place in a list that has doubled (24), and a
/// block of memory (32).
const ELEMENT: usize = 80;

/// Of so few octets the elements aren't counted: each octet stands for this many then, since an element has two or
/// three of its own.
const SMALL: usize = 16_384;

const EACH: usize = 28;

/// Whether a header at the front states more octets, with its own, than there are with so many further ones.
fn states_more(octets: &[u8], count: usize) -> bool
    ensures yes { OnTrue result (StatesMore octets.now count) }
    ensures no { OnFalse result (StatesMore octets.now count → ⊥) }
{
    match header(octets) {
        Ok((_, len, size)) => {
            let stated = u128::from(len) + size as u128;
            stated > octets.len() as u128 + count as u128
        }
        Err(_) => false,
    }
}

/// How many octets stand before the next element: the first one's, or those of its header where elements are inside of
/// it. None, where no whole header is there.
fn step(octets: &[u8]) -> Option<usize>
    ensures on { IfSome result (λ n. 0 < n) }
    ensures some { IfSome result (λ _. 0 < length octets.now) }
{
    match header(octets) {
        Ok((first, len, size)) => {
            if first & CONSTRUCTED != 0 {
                Some(size)
            } else {
                Some(size.saturating_add(len as usize))
            }
        }
        Err(_) => None,
    }
}

/// How many elements octets have, also inside of one another.
fn elements(octets: &[u8]) -> usize
    ensures { result ≤ length octets.now }
{
    let mut rest = octets;
    let mut count = 0;
    while let Some(size) = step(rest) {
        count += 1;
        if size >= rest.len() {
            break;
        }
        let (_, behind) = rest.split_at(size);
        rest = behind;
    }
    count
}

/// How many octets of memory those messages take, at most, that these octets become with so many further ones; 0, where
/// they state more.
pub fn weight(octets: &[u8], count: usize) -> usize
    ensures begun { StatesMore octets.now count → result ≡ 0 }
    ensures whole { (StatesMore octets.now count → ⊥) → min (length octets.now + count) 18446744073709551615 ≤ result }
{
    if states_more(octets, count) {
        return 0;
    }
    let all = octets.len().saturating_add(count);
    if all <= SMALL {
        all.saturating_mul(EACH)
    } else {
        let elements = elements(octets).saturating_add(count / 2);
        all.saturating_add(elements.saturating_mul(ELEMENT))
    }
}
