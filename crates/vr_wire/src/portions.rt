//! Parts of messages, cut from octets. Takes the octets of a frame; gives whose part it is and what of the message it
//! holds. No memory is taken.
ghost use Rattle.vr_wire.specs.private.Cutting.{Gives};
ghost use Rattle.vr_wire.specs.private.Parts.{cut_long, cut_place, portion_of, cut_portion, cut_part_said, cut_part_rest, cut_part};

use crate::cutting::{cut_octet, cut_short};
use crate::error::WireError;
use crate::labels::{Label, Portion};
use crate::octets::Octets;
use crate::reading::{REST_LIMIT, cut_head};

/// The kind of frames that are parts.
pub const PART: u8 = 13;

/// A number of 64 bits.
#[tactic(auto, unfolding(crate::specs::private::Cutting::cut_octets, crate::specs::private::Parts::cut_long))]
fn cut_long(octets: &[u8]) -> Result<(u64, &[u8]), WireError>
    ensures { Gives (λ p. (p.0, p.1.now)) result (cut_long octets.now) }
{
    match octets.split_first_chunk::<8>() {
        None => Err(WireError::BadFrame),
        Some((eight, rest)) => Ok((u64::from_be_bytes(*eight), rest)),
    }
}

/// A part's place, and how many parts there are.
#[tactic(auto, unfolding(crate::specs::private::Parts::cut_place))]
fn cut_place(octets: &[u8]) -> Result<((u32, u32), &[u8]), WireError>
    ensures { Gives (λ p. (p.0, p.1.now)) result (cut_place octets.now) }
{
    let (place, rest) = cut_short(octets)?;
    let (count, rest) = cut_short(rest)?;
    Ok(((place, count), rest))
}

/// The part of these fields, unless no message has such a one.
fn portion_of(
    sender: u8,
    number: u64,
    place: u32,
    count: u32,
    piece: &[u8],
) -> Result<Portion<Octets<'_>>, WireError>
    ensures { Gives (λ p. p) result (portion_of sender number place count piece.now) }
{
    if place < count && 0 < piece.len() {
        Ok(Portion {
            label: Label {
                sender,
                number,
                count,
            },
            place,
            piece: Octets::new(piece),
        })
    } else {
        Err(WireError::BadFrame)
    }
}

/// What follows a part's kind.
#[tactic(auto, unfolding(crate::specs::private::Parts::cut_portion))]
fn cut_portion(octets: &[u8]) -> Result<Portion<Octets<'_>>, WireError>
    ensures { Gives (λ p. p) result (cut_portion octets.now) }
{
    let (sender, rest) = cut_octet(octets)?;
    let (number, rest) = cut_long(rest)?;
    let ((place, count), piece) = cut_place(rest)?;
    portion_of(sender, number, place, count, piece)
}

/// A part's kind, and what follows it.
#[tactic(auto, unfolding(crate::specs::private::Parts::cut_part_said))]
fn cut_part_said(octets: &[u8]) -> Result<Portion<Octets<'_>>, WireError>
    ensures { Gives (λ p. p) result (cut_part_said octets.now) }
{
    let (kind, rest) = cut_octet(octets)?;
    if kind == PART {
        cut_portion(rest)
    } else {
        Err(WireError::BadFrame)
    }
}

/// The cluster's number, and a part in it.
#[tactic(auto, unfolding(crate::specs::private::Parts::cut_part_rest))]
fn cut_part_rest(octets: &[u8]) -> Result<(u64, Portion<Octets<'_>>), WireError>
    ensures { Gives (λ p. p) result (cut_part_rest octets.now) }
{
    let (cluster, rest) = cut_head(octets)?;
    let portion = cut_part_said(rest)?;
    Ok((cluster, portion))
}

/// The part that a frame is, and its cluster's number.
#[tactic(auto, unfolding(crate::specs::private::Parts::cut_part))]
pub fn cut_part(frame: &[u8]) -> Result<(u64, Portion<Octets<'_>>), WireError>
    ensures { Gives (λ p. p) result (cut_part frame.now) }
{
    let (count, octets) = cut_short(frame)?;
    if count <= REST_LIMIT && octets.len() == count as usize {
        cut_part_rest(octets)
    } else {
        Err(WireError::BadFrame)
    }
}
