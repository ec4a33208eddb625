//! Decides how a step of a node goes that other threads wait for: a disk that hangs and a long step look alike from
//! outside.
ghost use Rattle.std.specs.Prelude.{◌≡◌, ◌≤◌, None};
ghost use Rattle.replica_clock.specs.Clock.{longest};
ghost use Rattle.replica_clock.specs.Steps.{beaten_at, beats_at, busied, freed, is_seen, lasted_since, progress};
ghost use Rattle.replica_clock.specs.Steps.{ABusyPrimaryIsHeard, AHungPrimaryIsSilent, AHungStepIsTold, AShortStepIsWell};

use crate::pace::Pace;
use crate::times::Times;
use std::marker::Model;

/// After how many suspect periods at one step a replica no longer says that it is there: then the others go on without
/// it. A step that long is rarer than a disk that hangs, and each replica that does so costs a view change.
const SILENT_AFTER: u64 = 3;

/// How a step of a node goes.
#[derive(Clone, Copy, Debug, PartialEq, Eq)]
pub enum Progress {
    Well,
    /// It has lasted for longer than a suspect period.
    Stuck,
    /// It has lasted for so long that the replica no longer says that it is there.
    Hung,
}

/// What is known of the step that a node is at. Moments are in the unit of the times that it is made with.
#[derive(Drop)]
pub struct Steps {
    suspect: u64,
    made: u64,
    since: Option<u64>,
    ghost short: { suspect ≤ longest },
}

impl Model for Steps {
    ghost use Rattle.replica_clock.specs.Steps.{StepsValue};

    ghost Value = { StepsValue };

    ghost view = { λ s. record { suspect = s.suspect; made = s.made; since = s.since } };
}

/// For how long a step has lasted.
fn lasted_since(since: Option<u64>, now: u64) -> u64
    ensures { result ≡ lasted_since since now }
{
    match since {
        None => 0,
        Some(since) => now.saturating_sub(since),
    }
}

/// Whether this step was seen before.
fn is_seen(since: Option<u64>, own: u64, made: u64) -> bool
    ensures { result ≡ is_seen since own made }
{
    match since {
        None => false,
        Some(_) => own == made,
    }
}

impl Steps {
    /// A node that is at no step.
    pub fn new(times: Times) -> Steps
        ensures { result ≡ record { suspect = times.suspect; made = 0; since = None } }
    {
        Steps {
            suspect: times.suspect(),
            made: 0,
            since: None,
        }
    }

    /// The node is at the step that follows on so many, at this moment.
    pub fn busy(&mut self, made: u64, now: u64)
        ensures { self.new ≡ busied self.old made now }
    {
        if !is_seen(self.since, self.made, made) {
            self.made = made;
            self.since = Some(now);
        }
    }

    /// The node is at no step.
    pub fn free(&mut self)
        ensures { self.new ≡ freed self.old }
    {
        self.since = None;
    }

    /// How the step goes at this moment.
    pub fn progress(&self, now: u64) -> Progress
        ensures { result ≡ progress self.now now }
    {
        let time = lasted_since(self.since, now);
        if time >= SILENT_AFTER * self.suspect {
            Progress::Hung
        } else if time >= self.suspect {
            Progress::Stuck
        } else {
            Progress::Well
        }
    }

    /// Whether a replica whose node is at this step sends its last beat once more at this moment; if so, that counts as
    /// done. Only a primary does, since only its beats are awaited: what others ask for would be sent to them again and
    /// again.
    pub fn beats_again(&self, leads: bool, pace: &mut Pace, now: u64) -> bool
        ensures beats { result ≡ beats_at leads (progress self.now now) pace.old now }
        ensures beaten { pace.new ≡ beaten_at leads (progress self.now now) pace.old now }
    {
        match self.progress(now) {
            Progress::Well | Progress::Stuck => leads && pace.take_turn(now),
            Progress::Hung => false,
        }
    }
}

/// A step that never ends is told, and a short one isn't: a primary that makes no progress falls silent, and not
/// before.
pub fn long_steps_are_told()
    ensures hung { AHungStepIsTold }
    ensures well { AShortStepIsWell }
    ensures silent { AHungPrimaryIsSilent }
    ensures heard { ABusyPrimaryIsHeard }
{}
