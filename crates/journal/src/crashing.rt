//! The octets that a crash leaves of a device in memory, for one fate of what no sync has settled.
ghost use Rattle.std.specs.Prelude.{◌≡◌, ◌≤◌, ◌+◌, ◌∷◌, ℕ, List, length, map, reverse, IfOk};
ghost use Rattle.journal.specs.Device.{Grown, Mixed};
ghost use Rattle.journal.specs.Memory.{MayLeave, Event, event, seen_after};
ghost use Rattle.journal.specs.private.Memory.{AreWithin, FitsIn};

use crate::record::Call;
use crate::splicing::{longer, spliced};
use std::alloc::{AllocError, Global};

/// What becomes of a write that no sync has settled, and of the zeros of a growth that failed.
#[derive(Clone, Copy, Debug, PartialEq, Eq)]
pub enum Fate {
    /// Nothing of it lasts.
    Lost,
    /// All of it lasts.
    Done,
    /// Its first octets last, this many at most.
    First(usize),
}

impl Fate {
    /// How many of this many octets last.
    fn lasting(self, octets: usize) -> usize
        ensures { result ≤ octets }
    {
        match self {
            Fate::Lost => 0,
            Fate::Done => octets,
            Fate::First(count) => count.min(octets),
        }
    }
}

/// An image after a write of this fate.
fn fated(
    alloc: Global,
    image: &[u8],
    at: usize,
    octets: &[u8],
    fate: Fate,
) -> Result<Vec<u8>, AllocError>
    requires { at + length octets.now ≤ length image.now }
    ensures { IfOk result (λ r. Mixed at octets.now image.now r.items) }
{
    let lasting = fate.lasting(octets.len());
    spliced(alloc, image, at, &octets[..lasting])
}

/// An image after a growth of this fate that failed.
fn half_grown(alloc: Global, image: &[u8], octets: usize, fate: Fate) -> Result<Vec<u8>, AllocError>
    ensures { IfOk result (λ r. Grown octets image.now r.items) }
{
    longer(alloc, image, fate.lasting(octets))
}

/// An image and what is seen, after one call more.
fn after_call(
    alloc: Global,
    image: &[u8],
    seen: &[u8],
    call: &Call,
    fate: Fate,
) -> Result<(Vec<u8>, Vec<u8>), AllocError>
    requires fits { FitsIn (event call.now) (length seen.now) }
    requires no_shorter { length seen.now ≤ length image.now }
    ensures image { IfOk result (λ x. (base : List ℕ) (older : List Event) → MayLeave base older image.now
        → seen.now ≡ seen_after base older → MayLeave base (event call.now ∷ older) x.0.items) }
    ensures seen { IfOk result (λ x. (base : List ℕ) (older : List Event) → seen.now ≡ seen_after base older
        → x.1.items ≡ seen_after base (event call.now ∷ older)) }
{
    match call {
        Call::Nothing => Ok((image.to_vec(alloc)?, seen.to_vec(alloc)?)),
        Call::Write {
            at,
            octets,
            is_done,
        } => {
            let image = fated(alloc, image, *at, octets, fate)?;
            if *is_done {
                Ok((image, spliced(alloc, seen, *at, octets)?))
            } else {
                Ok((image, seen.to_vec(alloc)?))
            }
        }
        Call::Grow { octets, is_done } => {
            if *is_done {
                let image = longer(alloc, image, *octets)?;
                Ok((image, longer(alloc, seen, *octets)?))
            } else {
                let image = half_grown(alloc, image, *octets, fate)?;
                Ok((image, seen.to_vec(alloc)?))
            }
        }
        Call::Settle => Ok((seen.to_vec(alloc)?, seen.to_vec(alloc)?)),
    }
}

/// The image that a crash leaves after these calls over a device that held base.
pub fn crashed_image(
    alloc: Global,
    base: &[u8],
    calls: &[Call],
    fate: Fate,
) -> Result<Vec<u8>, AllocError>
    requires { AreWithin base.now (reverse (map event calls.now)) }
    ensures { IfOk result (λ r. MayLeave base.now (reverse (map event calls.now)) r.items) }
{
    let mut image = base.to_vec(alloc)?;
    let mut seen = base.to_vec(alloc)?;
    for call in calls {
        (image, seen) = after_call(alloc, &image, &seen, call, fate)?;
    }
    Ok(image)
}
