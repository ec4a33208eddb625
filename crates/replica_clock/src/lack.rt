//! Decides whether something that a replica needs has been missing for too long, as threads that were to begin.
ghost use Rattle.std.specs.Prelude.{◌≡◌, None};
ghost use Rattle.replica_clock.specs.Lack.{first_since, is_too_long, looked};
ghost use Rattle.replica_clock.specs.Lack.{ALastingLackIsFound, AShortLackIsNone};

use std::marker::Model;

/// Since when something is missing, where it is. Moments are in the unit of the limit.
#[derive(Drop)]
pub struct Lack {
    limit: u64,
    since: Option<u64>,
}

impl Model for Lack {
    ghost use Rattle.replica_clock.specs.Lack.{LackValue};

    ghost Value = { LackValue };

    ghost view = { λ l. record { limit = l.limit; since = l.since } };
}

/// Since when that is missing which is missing at this moment.
fn first_since(since: Option<u64>, now: u64) -> u64
    ensures { result ≡ first_since since now }
{
    match since {
        None => now,
        Some(since) => since,
    }
}

/// Whether it has been missing for so long.
fn is_too_long(since: Option<u64>, limit: u64, now: u64) -> bool
    ensures { result ≡ is_too_long since limit now }
{
    match since {
        None => false,
        Some(since) => now.saturating_sub(since) >= limit,
    }
}

impl Lack {
    /// What may be missing for so long. It isn't known to be.
    pub fn new(limit: u64) -> Lack
        ensures { result ≡ record { limit = limit; since = None } }
    {
        Lack { limit, since: None }
    }

    /// It was looked at this moment whether it is missing: whether it has been for too long, at each look in a row.
    pub fn look(&mut self, is_missing: bool, now: u64) -> bool
        ensures looked { self.new ≡ looked self.old is_missing now }
        ensures over { result ≡ is_too_long self.new.since self.new.limit now }
    {
        self.since = if is_missing {
            Some(first_since(self.since, now))
        } else {
            None
        };
        is_too_long(self.since, self.limit, now)
    }
}

/// What is missing for long is found, and what is missing for a short time isn't.
pub fn lacks_are_found()
    ensures lasting { ALastingLackIsFound }
    ensures short { AShortLackIsNone }
{}
