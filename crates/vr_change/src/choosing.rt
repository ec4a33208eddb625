// What a new primary begins with: the best of the logs that the others bring, and the greatest commit-number.
ghost use Rattle.std.specs.Prelude.{◌≡◌, option_copied};
ghost use Rattle.vr_state.specs.Outcome.{indices};
ghost use Rattle.vr_state.specs.ViewChange.{at_least, best, most, prefer};

use vr_state::message::Change;
use vr_state::noting::noted;

/// Whether `first` is of a later normal view, or of the same one and as long.
pub fn at_least<P: Drop>(first: &Change<P>, second: &Change<P>) -> bool
    ensures { result ≡ at_least first.now second.now }
{
    second.last_normal_view < first.last_normal_view
        || (first.last_normal_view == second.last_normal_view
            && second.log.len() <= first.log.len())
}

/// The better of two, the first where they are alike.
pub fn prefer<'a, P: Drop>(
    first: Option<&'a Change<P>>,
    second: Option<&'a Change<P>>,
) -> Option<&'a Change<P>>
    ensures { option_copied result ≡ prefer (option_copied first.entry) (option_copied second.entry) }
{
    match (first, second) {
        (None, _) => second,
        (Some(_), None) => first,
        (Some(change), Some(other)) => {
            if at_least(change, other) {
                first
            } else {
                second
            }
        }
    }
}

#[tactic(auto, using(crate::proofs::Chosen::best_with))]
/// The best that is noted of so many replicas: of the latest normal view, then the longest, then the lowest sender's.
pub fn best<P: Drop>(notes: &[(u64, Change<P>)], count: u64) -> Option<&Change<P>>
    ensures { option_copied result ≡ best notes.now (indices count) }
{
    let mut best = None;
    for sender in (0..count).rev() {
        best = prefer(noted(notes, sender), best);
    }
    best
}

#[tactic(auto, using(crate::proofs::Chosen::most_with, crate::proofs::Chosen::most_without))]
/// The greatest commit-number that is noted of so many replicas; 0 if nothing is.
pub fn most<P: Drop>(notes: &[(u64, Change<P>)], count: u64) -> u64
    ensures { result ≡ most notes.now (indices count) }
{
    let mut most = 0;
    for sender in 0..count {
        if let Some(change) = noted(notes, sender) {
            most = change.commit_number.max(most);
        }
    }
    most
}
