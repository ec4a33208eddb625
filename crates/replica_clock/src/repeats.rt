//! Decides which of the DOVIEWCHANGEs that a replica repeats are heard: each would cost the node a look at its whole
//! log.
ghost use Rattle.std.specs.Prelude.{◌≡◌, None};
ghost use Rattle.replica_clock.specs.Repeats.{asked, handed_on, is_known, passes};
ghost use Rattle.replica_clock.specs.Repeats.{ANewViewPasses, ARepeatedMessagePasses, RepeatedMessagesAreHeldBack};

use std::marker::Model;

/// How many of one view are held back in a row. One passes now and then, since the first may have come while the node
/// recovered, or found no memory.
const HELD_BACK: u64 = 16;

/// What is known of the DOVIEWCHANGEs of one replica.
#[derive(Drop)]
pub struct Repeats {
    /// The view of the last one that was handed on.
    view: Option<u64>,
    /// How many of that view were held back since.
    held_back: u64,
}

impl Model for Repeats {
    ghost use Rattle.replica_clock.specs.Repeats.{RepeatsValue};

    ghost Value = { RepeatsValue };

    ghost view = { λ r. record { view = r.view; held_back = r.held_back } };
}

/// Whether it is the view of the last one that was handed on.
fn is_known(known: Option<u64>, view: u64) -> bool
    ensures { result ≡ is_known known view }
{
    match known {
        None => false,
        Some(known) => known == view,
    }
}

impl Repeats {
    /// A replica of which none was handed on.
    pub fn new() -> Repeats
        ensures { result ≡ record { view = None; held_back = 0 } }
    {
        Repeats {
            view: None,
            held_back: 0,
        }
    }

    /// One of this view came: whether it is to be handed on. If not, it counts as held back.
    pub fn ask(&mut self, view: u64) -> bool
        ensures passes { result ≡ passes self.old view }
        ensures asked { self.new ≡ asked self.old view }
    {
        let passes = !(is_known(self.view, view) && self.held_back < HELD_BACK);
        if !passes {
            self.held_back += 1;
        }
        passes
    }

    /// One of this view was handed on.
    pub fn hand_on(&mut self, view: u64)
        ensures { self.new ≡ handed_on view }
    {
        self.view = Some(view);
        self.held_back = 0;
    }
}

/// A message that is repeated is heard at times, and not each time.
pub fn repeats_pass_at_times()
    ensures passes { ARepeatedMessagePasses }
    ensures first { ANewViewPasses }
    ensures held_back { RepeatedMessagesAreHeldBack }
{}
