//! Decides whether the other end of a stream is still there: when it is asked, and how long its answer may take.
ghost use Rattle.std.specs.Prelude.{◌≡◌, false, None};
ghost use Rattle.replica_clock.specs.KeepAlive.{answered, asked, begun, is_due, is_gone, is_past, waits_from, ASilentEndIsGone};

use std::marker::Model;

/// What is known of the other end of the streams to one replica, one stream after the other. Moments and times are in
/// one unit.
#[derive(Drop)]
pub struct KeepAlive {
    beat: u64,
    silence: u64,
    answers: bool,
    asked_at: u64,
    waits_since: Option<u64>,
}

impl Model for KeepAlive {
    ghost use Rattle.replica_clock.specs.KeepAlive.{KeepAliveValue};

    ghost Value = { KeepAliveValue };

    ghost view = { λ k. record {
      beat = k.beat;
      silence = k.silence;
      answers = k.answers;
      asked_at = k.asked_at;
      waits_since = k.waits_since;
    } };
}

/// Since when an answer is awaited, where one is asked for at this moment.
fn waits_from(since: Option<u64>, now: u64) -> u64
    ensures { result ≡ waits_from since now }
{
    match since {
        None => now,
        Some(since) => since,
    }
}

/// Whether an answer has been awaited for so long.
fn is_past(silence: u64, since: Option<u64>, now: u64) -> bool
    ensures { result ≡ is_past silence since now }
{
    match since {
        None => false,
        Some(since) => now.saturating_sub(since) >= silence,
    }
}

impl KeepAlive {
    /// An end that is asked once a beat and may be silent for so long. It has never answered: one that never does isn't
    /// given up, since a replica of an earlier version answers nothing.
    pub fn new(beat: u64, silence: u64) -> KeepAlive
        ensures { result ≡ record {
          beat = beat;
          silence = silence;
          answers = false;
          asked_at = 0;
          waits_since =
              None;
        } }
    {
        KeepAlive {
            beat,
            silence,
            answers: false,
            asked_at: 0,
            waits_since: None,
        }
    }

    /// A new stream to it was made.
    pub fn begin(&mut self, now: u64)
        ensures { self.new ≡ begun self.old now }
    {
        self.asked_at = now;
        self.waits_since = if self.answers { Some(now) } else { None };
    }

    /// It has answered.
    pub fn hear(&mut self)
        ensures { self.new ≡ answered self.old }
    {
        self.answers = true;
        self.waits_since = None;
    }

    /// Whether it has ever answered.
    pub fn answers(&self) -> bool
        ensures { result ≡ self.now.answers }
    {
        self.answers
    }

    /// Whether it is to be asked.
    pub fn is_due(&self, now: u64) -> bool
        ensures { result ≡ is_due self.now now }
    {
        now.saturating_sub(self.asked_at) >= self.beat
    }

    /// It is asked, unless it is one that never answers.
    pub fn ask(&mut self, now: u64)
        ensures { self.new ≡ asked self.old now }
    {
        self.asked_at = now;
        if self.answers {
            self.waits_since = Some(waits_from(self.waits_since, now));
        }
    }

    /// Whether it counts as gone.
    pub fn is_gone(&self, now: u64) -> bool
        ensures { result ≡ is_gone self.now now }
    {
        is_past(self.silence, self.waits_since, now)
    }
}

/// An end that falls silent counts as gone in time, however often it is asked.
pub fn silence_is_found()
    ensures gone { ASilentEndIsGone }
{}
