//! Decides whether a replica hears from a majority of all: a primary that doesn't can commit nothing.
ghost use Rattle.std.specs.Prelude.{◌≡◌, ◌<◌, IfOk, length, get_or};
ghost use Rattle.std.specs.List.{count_by};
ghost use Rattle.replica_clock.specs.Majority.{asked, first, heard_from, holds, in_touch, is_within};

use crate::times::Times;
use std::alloc::{AllocError, Global};
use std::marker::Model;

/// When each replica was heard last. Moments are in the unit of the times that it is made with.
#[derive(Drop)]
pub struct Majority {
    suspect: u64,
    index: usize,
    heard: Vec<u64>,
    asked_at: u64,
    rested_at: u64,
}

impl Model for Majority {
    ghost use Rattle.replica_clock.specs.Majority.{MajorityValue};

    ghost Value = { MajorityValue };

    ghost view = { λ m. record {
      suspect = m.suspect;
      index = m.index;
      heard = m.heard.items;
      asked_at = m.asked_at;
      rested_at = m.rested_at;
    } };
}

/// Whether a replica that was heard at this moment is still in touch.
fn is_within(suspect: u64, now: u64, moment: u64) -> bool
    ensures { result ≡ is_within suspect now moment }
{
    now.saturating_sub(moment) <= suspect
}

impl Majority {
    /// How many replicas are in touch.
    fn in_touch(&self, now: u64) -> usize
        ensures { result ≡ in_touch self.now now }
    {
        let suspect = self.suspect;
        self.heard
            .iter()
            .filter(|moment| is_within(suspect, now, **moment))
            .count()
    }

    /// The replica of this index among so many, each of which counts as heard at this moment.
    pub fn new(
        alloc: Global,
        times: Times,
        index: usize,
        count: usize,
        now: u64,
    ) -> Result<Majority, AllocError>
        ensures { IfOk result (λ m. m ≡ first times.suspect index count now) }
    {
        let mut heard = Vec::from_elem(alloc, now, count)?;
        // it hears itself at each moment
        if let Some(own) = heard.get_mut(index) {
            *own = u64::MAX;
        }
        Ok(Majority {
            suspect: times.suspect(),
            index,
            heard,
            asked_at: now,
            rested_at: now,
        })
    }

    /// Another replica was heard at this moment; nothing changes where there is none of this index.
    pub fn hear(&mut self, from: usize, now: u64)
        ensures { self.new ≡ heard_from self.old from now }
    {
        if from == self.index {
            return;
        }
        if let Some(moment) = self.heard.get_mut(from) {
            *moment = now;
        }
    }

    /// Whether it is in touch with a majority at this moment. It is asked about once a beat: where it is asked much too
    /// late it was stopped itself.
    pub fn ask(&mut self, now: u64) -> bool
        ensures asked { self.new ≡ asked self.old now }
        ensures holds { result ≡ holds self.new now }
    {
        if now.saturating_sub(self.asked_at) >= self.suspect / 2 {
            self.rested_at = now;
        }
        self.asked_at = now;
        now.saturating_sub(self.rested_at) <= self.suspect
            || self.in_touch(now) > self.heard.len() / 2
    }
}
