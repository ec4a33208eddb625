//! Fields cut from the front of octets, which are numbers, clusters, clients, payloads and records. No memory is taken.
ghost use Rattle.std.specs.Prelude.{◌≡◌, ◌∷◌, length};
ghost use Rattle.std.specs.Int.{w64, from_be_bytes};
ghost use Rattle.vr_wire.specs.private.Cutting.{Gives, cut_octet, cut_octets, cut_number, cut_short, cut_cluster, known_cluster, cut_client, cut_payload};
ghost use Rattle.vr_wire.specs.private.Cutting.{cut_entry, cut_two, cut_three, small_number, known_client};

use crate::error::WireError;
use crate::octets::Octets;
use vr_state::words::{Client, LogEntry};

/// The end of the numbers that a frame holds.
pub const NUMBER_END: u64 = 1 << 63;

#[tactic(auto, unfolding(crate::specs::private::Cutting::cut_octet))]
pub fn cut_octet(octets: &[u8]) -> Result<(u8, &[u8]), WireError>
    ensures { Gives (λ p. (p.0, p.1.now)) result (cut_octet octets.now) }
{
    match octets.split_first() {
        Some((first, rest)) => Ok((*first, rest)),
        None => Err(WireError::BadFrame),
    }
}

#[tactic(auto, unfolding(crate::specs::private::Cutting::cut_octets))]
pub fn cut_octets(count: usize, octets: &[u8]) -> Result<(&[u8], &[u8]), WireError>
    ensures { Gives (λ p. (p.0.now, p.1.now)) result (cut_octets count octets.now) }
{
    if count <= octets.len() {
        Ok(octets.split_at(count))
    } else {
        Err(WireError::BadFrame)
    }
}

#[tactic(auto, unfolding(crate::specs::private::Cutting::cut_octets, crate::specs::private::Cutting::cut_number))]
pub fn cut_number(octets: &[u8]) -> Result<(u64, &[u8]), WireError>
    ensures { Gives (λ p. (p.0, p.1.now)) result (cut_number octets.now) }
{
    match octets.split_first_chunk::<8>() {
        None => Err(WireError::BadFrame),
        Some((eight, rest)) => {
            let number = u64::from_be_bytes(*eight);
            if number < NUMBER_END {
                Ok((number, rest))
            } else {
                Err(WireError::BadFrame)
            }
        }
    }
}

#[tactic(auto, unfolding(crate::specs::private::Cutting::cut_octets, crate::specs::private::Cutting::cut_short))]
pub fn cut_short(octets: &[u8]) -> Result<(u32, &[u8]), WireError>
    ensures { Gives (λ p. (p.0, p.1.now)) result (cut_short octets.now) }
{
    match octets.split_first_chunk::<4>() {
        None => Err(WireError::BadFrame),
        Some((four, rest)) => Ok((u32::from_be_bytes(*four), rest)),
    }
}

/// The number of a cluster, which isn't 0.
#[tactic(auto, unfolding(crate::specs::private::Cutting::cut_octets, crate::specs::private::Cutting::cut_cluster))]
pub fn cut_cluster(octets: &[u8]) -> Result<(u64, &[u8]), WireError>
    ensures { Gives (λ p. (p.0, p.1.now)) result (cut_cluster octets.now) }
{
    let (six, rest) = cut_octets(6, octets)?;
    let number = long_number(six);
    if 0 < number {
        Ok((number, rest))
    } else {
        Err(WireError::BadFrame)
    }
}

/// The number of six octets.
pub fn long_number(six: &[u8]) -> u64
    requires { length six.now ≡ 6 }
    ensures { result ≡ from_be_bytes w64 (0 ∷ 0 ∷ six.now) }
{
    let mut word = [0; 8];
    word[2..].copy_from_slice(six);
    u64::from_be_bytes(word)
}

#[tactic(auto, unfolding(crate::specs::private::Cutting::cut_client))]
fn cut_client(octets: &[u8]) -> Result<(Client, &[u8]), WireError>
    ensures { Gives (λ p. (p.0, p.1.now)) result (cut_client octets.now) }
{
    let (home, rest) = cut_octet(octets)?;
    let (life, rest) = cut_number(rest)?;
    let (number, rest) = cut_number(rest)?;
    if home == 0 && !(life == 0) {
        Err(WireError::BadFrame)
    } else {
        Ok((Client { home, life, number }, rest))
    }
}

#[tactic(auto, unfolding(crate::specs::private::Cutting::cut_payload))]
fn cut_payload(octets: &[u8]) -> Result<(&[u8], &[u8]), WireError>
    ensures { Gives (λ p. (p.0.now, p.1.now)) result (cut_payload octets.now) }
{
    let (length, rest) = cut_short(octets)?;
    cut_octets(length as usize, rest)
}

/// A record.
#[tactic(auto, unfolding(crate::specs::private::Cutting::cut_entry))]
pub fn cut_entry(octets: &[u8]) -> Result<(LogEntry<Octets<'_>>, &[u8]), WireError>
    ensures { Gives (λ p. (p.0, p.1.now)) result (cut_entry octets.now) }
{
    let (client, rest) = cut_client(octets)?;
    let (request_number, rest) = cut_number(rest)?;
    let (payload, rest) = cut_payload(rest)?;
    let entry = LogEntry {
        client,
        request_number,
        payload: Octets::new(payload),
    };
    Ok((entry, rest))
}

/// Two numbers.
#[tactic(auto, unfolding(crate::specs::private::Cutting::cut_two))]
pub fn cut_two(octets: &[u8]) -> Result<((u64, u64), &[u8]), WireError>
    ensures { Gives (λ p. (p.0, p.1.now)) result (cut_two octets.now) }
{
    let (first, rest) = cut_number(octets)?;
    let (second, rest) = cut_number(rest)?;
    Ok(((first, second), rest))
}

/// Three numbers.
#[tactic(auto, unfolding(crate::specs::private::Cutting::cut_three))]
pub fn cut_three(octets: &[u8]) -> Result<((u64, (u64, u64)), &[u8]), WireError>
    ensures { Gives (λ p. (p.0, p.1.now)) result (cut_three octets.now) }
{
    let (first, rest) = cut_number(octets)?;
    let (others, rest) = cut_two(rest)?;
    Ok(((first, others), rest))
}
