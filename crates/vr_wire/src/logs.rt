//! Cuts logs from the front of octets.
ghost use Rattle.std.specs.Prelude.{◌≡◌};
ghost use Rattle.vr_wire.specs.private.Cutting.{Gives, cut_entries, cut_log, cut_held, cut_perhaps};

use crate::cutting::{cut_entry, cut_number, cut_octet, cut_short};
use crate::error::WireError;
use crate::octets::Octets;
use crate::writing::ENTRY_LEN;
use std::alloc::Global;
use vr_state::log::Log;
use vr_state::message::Snapshot;
use vr_state::words::LogEntry;

/// So many records. Room is made once, and for no more records than as many octets can spell.
fn cut_entries(
    alloc: Global,
    count: u32,
    octets: &[u8],
) -> Result<(Vec<LogEntry<Octets<'_>>>, &[u8]), WireError>
    ensures { Gives (λ p. (p.0.items, p.1.now)) result (cut_entries count octets.now) }
{
    let room = (octets.len() / ENTRY_LEN).min(count as usize);
    let mut entries = Vec::with_capacity(alloc, room)?;
    let mut rest = octets;
    for counter in 0..count {
        let (entry, after) = cut_entry(rest)?;
        entries.push(entry)?;
        rest = after;
    }
    Ok((entries, rest))
}

#[tactic(auto, unfolding(crate::specs::private::Cutting::cut_log))]
pub fn cut_log(alloc: Global, octets: &[u8]) -> Result<(Log<Octets<'_>>, &[u8]), WireError>
    ensures { Gives (λ p. (p.0, p.1.now)) result (cut_log octets.now) }
{
    let (count, rest) = cut_short(octets)?;
    let (entries, rest) = cut_entries(alloc, count, rest)?;
    Ok((Log::from_vec(entries), rest))
}

#[tactic(auto, unfolding(crate::specs::private::Cutting::cut_held))]
pub fn cut_held(alloc: Global, octets: &[u8]) -> Result<(Snapshot<Octets<'_>>, &[u8]), WireError>
    ensures { Gives (λ p. (p.0, p.1.now)) result (cut_held octets.now) }
{
    let (commit_number, rest) = cut_number(octets)?;
    let (log, rest) = cut_log(alloc, rest)?;
    Ok((Snapshot { log, commit_number }, rest))
}

/// A log that may be missing.
#[tactic(auto, unfolding(crate::specs::private::Cutting::cut_perhaps))]
pub fn cut_perhaps(
    alloc: Global,
    octets: &[u8],
) -> Result<(Option<Snapshot<Octets<'_>>>, &[u8]), WireError>
    ensures { Gives (λ p. (p.0, p.1.now)) result (cut_perhaps octets.now) }
{
    let (there, rest) = cut_octet(octets)?;
    match there {
        0 => Ok((None, rest)),
        1 => {
            let (held, rest) = cut_held(alloc, rest)?;
            Ok((Some(held), rest))
        }
        _ => Err(WireError::BadFrame),
    }
}
