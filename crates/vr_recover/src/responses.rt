// The responses to a recovery: of each sender the first of its greatest view. When a recovery ends isn't said here.
ghost use Rattle.std.specs.Prelude.{◌≡◌, ◌<◌, length, IfOk, OnErr};
ghost use Rattle.vr_recover.specs.private.Responses.{place_of, taken_back};
ghost use Rattle.vr_state.specs.Outcome.{indices};
ghost use Rattle.vr_state.specs.Recovery.{keep, latest_view};

use crate::kept::KeptResponse;
use std::alloc::AllocError;
use std::mem::replace;
use vr_state::message::Response;
use vr_state::noting::noted;

#[tactic(auto, using(crate::proofs::Keeping::kept_last, crate::proofs::Keeping::last_taken_back))]
/// Keeps a response, if it is its sender's first of its greatest view. At an error nothing has changed.
pub fn keep<P: Drop>(
    responses: &mut Vec<(u64, Response<P>)>,
    from: u64,
    response: Response<P>,
) -> Result<KeptResponse<P>, AllocError>
    ensures ok { IfOk result (λ kept. responses.new.items ≡ keep from response responses.old.items) }
    ensures back { IfOk result (λ kept. taken_back kept responses.new.items ≡ responses.old.items) }
    ensures err { OnErr result (responses.new.items ≡ responses.old.items) }
{
    let place = place_of(responses.as_slice(), from);
    if place < responses.as_slice().len() {
        Ok(keep_greater(responses, place, from, response))
    } else {
        responses.push((from, response))?;
        Ok(KeptResponse::Added)
    }
}

/// Has the responses as they were before one was kept.
pub fn take_back<P: Drop>(responses: &mut Vec<(u64, Response<P>)>, kept: KeptResponse<P>)
    ensures { responses.new.items ≡ taken_back kept responses.old.items }
{
    match kept {
        KeptResponse::Nothing => {}
        KeptResponse::Added => {
            let length = responses.as_slice().len();
            responses.truncate(length.saturating_sub(1));
        }
        KeptResponse::Changed { place, old } => {
            if place < responses.as_slice().len() {
                responses[place] = old;
            }
        }
    }
}

#[tactic(auto, using(crate::proofs::Keeping::kept_greater, crate::proofs::Keeping::kept_same, crate::proofs::Keeping::place_taken_back))]
/// Puts a response in this place, if its view is greater than that of the one there.
fn keep_greater<P: Drop>(
    responses: &mut Vec<(u64, Response<P>)>,
    place: usize,
    from: u64,
    response: Response<P>,
) -> KeptResponse<P>
    requires within { place < length responses.old.items }
    requires first { place ≡ place_of from responses.old.items }
    ensures ok { responses.new.items ≡ keep from response responses.old.items }
    ensures back { taken_back result responses.new.items ≡ responses.old.items }
{
    if responses[place].1.view_number < response.view_number {
        let old = replace(&mut responses[place], (from, response));
        KeptResponse::Changed { place, old }
    } else {
        KeptResponse::Nothing
    }
}

/// The place of the first that is noted of this sender, or past the last where there is none.
fn place_of<T>(notes: &[(u64, T)], sender: u64) -> usize
    ensures { result ≡ place_of sender notes.now }
{
    let mut place = 0;
    for note in notes {
        if note.0 == sender {
            return place;
        }
        place += 1;
    }
    place
}

#[tactic(auto, using(crate::proofs::Latest::latest_with, crate::proofs::Latest::latest_without))]
/// The latest view in the responses of so many replicas; 0 if there is none.
pub fn latest_view<P: Drop>(responses: &[(u64, Response<P>)], count: u64) -> u64
    ensures { result ≡ latest_view responses.now (indices count) }
{
    let mut latest = 0;
    for sender in 0..count {
        if let Some(response) = noted(responses, sender) {
            latest = response.view_number.max(latest);
        }
    }
    latest
}
