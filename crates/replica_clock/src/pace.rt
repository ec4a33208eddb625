//! What is done again only after a beat: state that is asked for while its answer may be on its way, a beat that is
//! repeated in a long step.
ghost use Rattle.std.specs.Prelude.{◌≡◌, None};
ghost use Rattle.replica_clock.specs.Pace.{done_at, is_turn, turned};

use crate::times::Times;
use std::marker::Model;

/// Lets a thing be done at once, and again once a beat has passed since. Moments are in the unit of the times that it
/// is made with.
#[derive(Drop)]
pub struct Pace {
    beat: u64,
    last: Option<u64>,
}

impl Model for Pace {
    ghost use Rattle.replica_clock.specs.Pace.{PaceValue};

    ghost Value = { PaceValue };

    ghost view = { λ p. record { beat = p.beat; last = p.last } };
}

impl Pace {
    /// The pace of a replica's beats. Nothing was done yet.
    pub fn new(times: Times) -> Pace
        ensures beat { result.beat ≡ times.beat }
        ensures last { result.last ≡ None }
    {
        Pace {
            beat: times.beat(),
            last: None,
        }
    }

    /// Whether it may be done at this moment; if so, it counts as done.
    pub fn take_turn(&mut self, now: u64) -> bool
        ensures turn { result ≡ is_turn self.old now }
        ensures turned { self.new ≡ turned self.old now }
    {
        let is_turn = match self.last {
            None => true,
            Some(last) => now.saturating_sub(last) >= self.beat,
        };
        if is_turn {
            self.last = Some(now);
        }
        is_turn
    }

    /// It was done at this moment.
    pub fn note(&mut self, now: u64)
        ensures { self.new ≡ done_at self.old now }
    {
        self.last = Some(now);
    }

    /// What it was done for has come: it may be done again at once.
    pub fn reset(&mut self)
        ensures { self.new ≡ record self.old { last = None } }
    {
        self.last = None;
    }
}
