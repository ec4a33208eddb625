//! Says which thread sends what waits for another replica: the one whose work it is, or one that has put an item.
ghost use Rattle.std.specs.Prelude.{◌≡◌, ◌↔◌, ◌<◌, IsTrue, IsFalse};
ghost use Rattle.peer_link.specs.private.Turns.{IsLookedAt, MaySend};
ghost use Rattle.peer_link.specs.declared.turns.Step.TheVariants as step;
ghost use Rattle.peer_link.specs.declared.turns.Turn.TheVariants as turn;

/// How often in a row a thread that has put an item sends what has come meanwhile. The rest is the sender's.
pub const ROUNDS: u64 = 4;

/// Which thread has the stream.
#[derive(Clone, Copy, Debug, PartialEq, Eq)]
pub enum Turn {
    /// None has.
    Free,
    /// A thread that has put an item. It looks at what waits before it puts the stream back.
    Poster,
    /// The sender, whose work it is, or there is no stream. It looks at what waits before it puts the stream back.
    Sender,
}

/// What a thread that has put an item does about what waits.
#[derive(Clone, Copy, Debug, PartialEq, Eq)]
pub enum Step {
    /// Nothing.
    Leave,
    /// It sends it.
    Send,
    /// It calls the sender.
    Call,
}

/// What waits, as far as it matters for who sends it.
#[derive(Clone, Copy, Debug, PartialEq, Eq)]
pub struct Load {
    /// Whether something waits.
    pub is_some: bool,
    /// Whether something may be long that waits.
    pub is_long: bool,
}

impl Turn {
    /// What a thread does that has put an item.
    pub fn begin(self, load: Load) -> Step
        ensures looked_at { IsLookedAt self result load }
        ensures send { (result ≡ step.Send) ↔ ((self ≡ turn.Free) × MaySend load) }
    {
        if !load.is_some {
            return Step::Leave;
        }
        match self {
            Turn::Poster => Step::Leave,
            Turn::Free if !load.is_long => Step::Send,
            Turn::Free | Turn::Sender => Step::Call,
        }
    }
}

/// What such a thread does next that has sent so many times, and whose stream has taken all, or hasn't.
pub fn go_on(has_sent: bool, rounds: u64, load: Load) -> Step
    ensures sent { IsFalse has_sent → result ≡ step.Call }
    ensures looked_at { IsLookedAt turn.Free result load }
    ensures send { (result ≡ step.Send) ↔ (IsTrue has_sent × MaySend load × (rounds < 4)) }
{
    if !has_sent {
        Step::Call
    } else if !load.is_some {
        Step::Leave
    } else if load.is_long || rounds >= ROUNDS {
        Step::Call
    } else {
        Step::Send
    }
}
