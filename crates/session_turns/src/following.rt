//! Decides what a seat does behind a message: what it sees of the others comes in.
ghost use Rattle.std.specs.Prelude.{◌≡◌, ◌↔◌};
ghost use Rattle.session_turns.specs.Following.{IsUnseen, IsOver};
ghost use Rattle.session_turns.specs.declared.following.After.{After};

/// How many microseconds after a look the next one is due, where nobody waits for sockets: a message that came
/// meanwhile waits so long.
const LOOK: u64 = 1_000;

/// After how many microseconds a stay ends, where others are ready: a stay costs a write and two calls of the poll,
/// some 10.
const STAY: u64 = 1_000;

/// What a seat does behind a message.
#[derive(Clone, Copy, Debug, PartialEq, Eq)]
pub enum After {
    /// It goes on with its session.
    GoesOn,
    /// It looks which sockets are ready, and asks again.
    Looks,
    /// It writes what is said, and leaves its session to whoever takes that next.
    Ends,
}

/// What a seat sees of the others, without a lock.
#[derive(Clone, Copy, Debug)]
pub struct Seen {
    /// How many sessions wait for a seat.
    pub ready: usize,
    /// Whether a thread waits for sockets, or looks at them.
    pub is_led: bool,
    /// When it was last looked which sockets are ready.
    pub looked: u64,
}

/// What follows on a message, in a stay that began at this moment.
pub fn follows(seen: Seen, now: u64, begun: u64) -> After
    ensures looks { (result ≡ After.Looks) ↔ IsUnseen seen now }
    ensures ends { (result ≡ After.Ends) ↔ ((IsUnseen seen now → ⊥) × IsOver seen now begun) }
    ensures goes_on { (result ≡ After.GoesOn) ↔ ((IsUnseen seen now → ⊥) × (IsOver seen now begun → ⊥)) }
{
    if !seen.is_led && now.saturating_sub(seen.looked) >= LOOK {
        After::Looks
    } else if seen.ready > 0 && now.saturating_sub(begun) >= STAY {
        After::Ends
    } else {
        After::GoesOn
    }
}
