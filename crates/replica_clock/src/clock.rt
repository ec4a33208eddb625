//! A replica's clock: it is told what the replica does and hears, and says what is due.
ghost use Rattle.std.specs.Prelude.{◌≡◌, ℕ, ◌+◌, ◌*◌, ◌<◌, ◌≤◌, ◌^◌, min, true, false};
ghost use Rattle.replica_clock.specs.Clock.{IsAsked, begun, noted, heard, hurried, part_heard, part_taken, awaits, rested, done, due_at, is_over, is_time, is_own, is_past, is_same};
ghost use Rattle.replica_clock.specs.declared.clock.Due.TheVariants as due;
ghost use Rattle.replica_clock.specs.declared.sign.Sign.TheVariants as sign;
ghost use Rattle.replica_clock.specs.Clock.{latest, longest, most_longer, limit, next_primary, patience, primary, spread, distance, suspects, beats, times_longer, one_more, one_longer, still_given_up, twice_as_long, first_lost};

use crate::sign::Sign;
use crate::times::Times;
use std::marker::Model;
use vr_state::words::Status;

/// The latest moment: a later one counts as this.
const LATEST: u64 = 1 << 62;

/// By how many patiences more a view that doesn't begin is waited for, at most, where nothing long is on its way.
const LONGER: u64 = 7;

/// By how many at most where long messages are: more than any log takes. Sums of such times can't overflow.
const MOST_LONGER: u64 = (1 << 20) - 1;

/// What a replica is to do by itself.
#[derive(Clone, Copy, Debug, PartialEq, Eq)]
pub enum Due {
    Nothing,
    /// To send again what others may have missed.
    Beat,
    /// To suspect the primary of its view, to give up a view that doesn't begin, or, where it recovers, to remind the
    /// others of its view.
    Suspect,
}

/// What is due, and after how long to ask again.
#[derive(Clone, Copy, Debug, PartialEq, Eq)]
pub struct Asked {
    pub due: Due,
    pub wait: u64,
}

/// What a replica knows of the time. Moments are counted from any beginning, in the unit of its times.
#[derive(Drop)]
pub struct ReplicaClock {
    times: Times,
    index: u64,
    count: u64,
    status: Status,
    view_number: u64,
    silent_since: u64,
    lost_since: Option<u64>,
    given_up: u64,
    is_long: bool,
    beat_at: u64,
    ask_at: u64,
}

impl Model for ReplicaClock {
    ghost use Rattle.std.specs.Prelude.{◌<◌, ◌≤◌, ◌*◌, IfSome};
    ghost use Rattle.replica_clock.specs.Clock.{ClockValue, latest, most_longer};

    ghost Value = { ClockValue };

    ghost view = { λ c. record {
      beat = c.times.beat;
      suspect = c.times.suspect;
      index = c.index;
      count = c.count;
      status = c.status;
      view_number = c.view_number;
      silent_since = c.silent_since;
      lost_since = c.lost_since;
      given_up = c.given_up;
      is_long = c.is_long;
      beat_at = c.beat_at;
      ask_at = c.ask_at;
    } };

    ghost invariant = { λ c. (c.index < c.count)
        × (c.given_up ≤ most_longer)
        × (c.silent_since ≤ latest)
        × IfSome c.lost_since (λ since. since ≤ latest)
        × (c.ask_at ≤ 2 * latest)
        × (c.beat_at ≤ 2 * latest) };
}

/// So much time has passed since a moment, where there is one.
fn is_past(since: Option<u64>, time: u64, now: u64) -> bool
    ensures { result ≡ is_past since time now }
{
    match since {
        None => false,
        Some(since) => now.saturating_sub(since) >= time,
    }
}

/// Whether two statuses are one.
fn is_same(first: Status, second: Status) -> bool
    ensures { result ≡ is_same first second }
{
    match first {
        Status::Normal => matches!(second, Status::Normal),
        Status::ViewChange => matches!(second, Status::ViewChange),
        Status::Recovering => matches!(second, Status::Recovering),
    }
}

/// How much longer a view is waited for after one to whose end long messages were on their way.
fn twice_as_long(given_up: u64) -> u64
    requires { given_up ≤ most_longer }
    ensures is { result ≡ twice_as_long given_up }
    ensures most { result ≤ most_longer }
{
    (2 * given_up + 1).min(MOST_LONGER)
}

/// How much longer a view is waited for after one that is given up.
fn one_more(status: Status, given_up: u64, is_long: bool) -> u64
    requires { given_up ≤ most_longer }
    ensures is { result ≡ one_more status given_up is_long }
    ensures most { result ≤ most_longer }
{
    match status {
        Status::ViewChange => {
            if is_long {
                twice_as_long(given_up)
            } else {
                given_up.max((given_up + 1).min(LONGER))
            }
        }
        Status::Normal | Status::Recovering => 0,
    }
}

/// How much longer a view is waited for in a new status.
fn still_given_up(status: Status, given_up: u64, is_long: bool) -> u64
    requires { given_up ≤ most_longer }
    ensures is { result ≡ still_given_up status given_up is_long }
    ensures most { result ≤ most_longer }
{
    match status {
        Status::ViewChange => {
            if is_long {
                twice_as_long(given_up)
            } else {
                given_up
            }
        }
        Status::Normal | Status::Recovering => 0,
    }
}

impl ReplicaClock {
    /// The clock of the replica of this index among so many, in this view with this status. It wants to be asked at
    /// once.
    pub fn new(
        times: Times,
        index: u64,
        count: u64,
        view_number: u64,
        status: Status,
        now: u64,
    ) -> ReplicaClock
        ensures { result ≡ begun times.beat times.suspect index count view_number status (min now latest) }
    {
        let now = now.min(LATEST);
        let count = count.max(1);
        ReplicaClock {
            times,
            index: index % count,
            count,
            status,
            view_number,
            silent_since: now,
            lost_since: None,
            given_up: 0,
            is_long: false,
            beat_at: now + times.beat(),
            ask_at: now,
        }
    }

    /// When the clock wants to be asked again, if it isn't told anything before.
    pub fn ask_at(&self) -> u64
        ensures { result ≡ self.now.ask_at }
    {
        self.ask_at
    }

    /// The primary of the view.
    fn primary(&self) -> u64
        ensures primary { result ≡ primary self.now }
        ensures within { result < self.now.count }
    {
        self.view_number % self.count
    }

    /// Whether the replica would lead the view itself.
    fn is_own(&self) -> bool
        ensures { result ≡ is_own self.now }
    {
        self.primary() == self.index
    }

    /// How many turns after the next primary the replica comes.
    fn distance(&self) -> u64
        ensures { result ≡ distance self.now }
    {
        let count = self.count;
        let next = (self.primary() + 1) % count;
        if next <= self.index {
            self.index - next
        } else {
            count - next + self.index
        }
    }

    /// How much longer the replica waits than the next primary.
    fn spread(&self) -> u64
        ensures spread { result ≡ spread self.now }
        ensures short { result ≤ self.now.suspect }
    {
        self.times.suspect() / 8 * self.distance().min(7)
    }

    /// How long the replica waits in its view and status.
    fn limit(&self) -> u64
        ensures limit { result ≡ limit self.now }
        ensures some { 0 < result }
        ensures short { result ≤ 2 ^ 21 * longest }
    {
        let patience = self.times.suspect() + self.spread();
        match self.status {
            Status::ViewChange => patience * (self.given_up + 1),
            Status::Normal | Status::Recovering => patience,
        }
    }

    /// Whether the replica suspects somebody, in time.
    fn suspects(&self) -> bool
        ensures { result ≡ suspects self.now.status (is_own self.now) }
    {
        match self.status {
            Status::Normal => !self.is_own(),
            Status::ViewChange => true,
            Status::Recovering => true,
        }
    }

    /// Whether the replica sends again at each beat.
    fn beats(&self) -> bool
        ensures { result ≡ beats self.now.status (is_own self.now) }
    {
        match self.status {
            Status::Normal => self.is_own(),
            Status::ViewChange | Status::Recovering => true,
        }
    }

    /// Whether its patience is over.
    fn is_over(&self, now: u64) -> bool
        ensures { result ≡ is_over self.now now }
    {
        self.suspects()
            && (now.saturating_sub(self.silent_since) >= self.limit()
                || is_past(self.lost_since, self.spread(), now))
    }

    /// What is due at a moment.
    fn due_at(&self, now: u64) -> Due
        ensures due { result ≡ due_at self.now now }
        ensures patient { (result ≡ due.Suspect → ⊥) → is_over self.now now ≡ false }
        ensures early { result ≡ due.Nothing → is_time self.now now ≡ false }
    {
        if self.is_over(now) {
            Due::Suspect
        } else if self.beats() && self.beat_at <= now {
            Due::Beat
        } else {
            Due::Nothing
        }
    }

    /// Leaves out of the silence by how much the clock was asked too late.
    fn rest(&mut self, now: u64)
        requires { now ≤ latest }
        ensures { self.new ≡ rested self.old now }
    {
        let late = now.saturating_sub(self.ask_at);
        self.silent_since = now.min(self.silent_since + late);
    }

    /// Takes note of what is done.
    fn take(&mut self, what: Due, now: u64)
        requires now { now ≤ latest }
        requires patient { (what ≡ due.Suspect → ⊥) → is_over self.old now ≡ false }
        requires early { what ≡ due.Nothing → is_time self.old now ≡ false }
        ensures done { self.new ≡ done what self.old now }
        ensures patient { is_over self.new now ≡ false }
        ensures early { is_time self.new now ≡ false }
    {
        match what {
            Due::Nothing => {}
            Due::Beat => self.beat_at = now + self.times.beat(),
            Due::Suspect => {
                self.silent_since = now;
                self.lost_since = None;
                self.given_up = one_more(self.status, self.given_up, self.is_long);
                self.is_long = false;
                self.beat_at = now + self.times.beat();
            }
        }
    }

    /// How long the patience with the others still lasts.
    fn patience_left(&self, now: u64) -> u64
        requires now { now ≤ latest }
        requires suspects { suspects self.now.status (is_own self.now) ≡ true }
        requires patient { is_over self.now now ≡ false }
        ensures some { 0 < result }
        ensures quiet { (t : ℕ) → now ≤ t → t < now + result → is_over self.now t ≡ false }
    {
        let silence = self.silent_since + self.limit() - now;
        match self.lost_since {
            None => silence,
            Some(since) => silence.min(since + self.spread() - now),
        }
    }

    /// How long nothing will be due, at most a beat.
    fn wait(&self, now: u64) -> u64
        requires now { now ≤ latest }
        requires patient { is_over self.now now ≡ false }
        requires early { is_time self.now now ≡ false }
        ensures some { 0 < result }
        ensures soon { result ≤ self.now.beat }
        ensures quiet { (t : ℕ) → now ≤ t → t < now + result → due_at self.now t ≡ due.Nothing }
    {
        let mut wait = self.times.beat();
        if self.beats() {
            wait = wait.min(self.beat_at - now);
        }
        if self.suspects() {
            wait = wait.min(self.patience_left(now));
        }
        wait
    }

    /// The clock is asked: what is due at this moment, and after how long to ask again. What is due counts as done.
    pub fn ask(&mut self, now: u64) -> Asked
        ensures { IsAsked self.old (min now latest) result.due result.wait self.new }
    {
        let now = now.min(LATEST);
        self.rest(now);
        let due = self.due_at(now);
        self.take(due, now);
        let wait = self.wait(now);
        self.ask_at = now + wait;
        Asked { due, wait }
    }

    /// The replica is in this view with this status.
    pub fn note(&mut self, view_number: u64, status: Status, now: u64)
        ensures { self.new ≡ noted self.old view_number status (min now latest) }
    {
        let now = now.min(LATEST);
        if self.view_number == view_number && is_same(self.status, status) {
            return;
        }
        self.view_number = view_number;
        self.status = status;
        self.silent_since = now;
        self.lost_since = None;
        self.beat_at = now + self.times.beat();
        self.given_up = still_given_up(status, self.given_up, self.is_long);
        self.is_long = false;
    }

    /// More is committed than the others were told: a primary makes its next beat within a 256th of the time between
    /// beats.
    pub fn hurry(&mut self, now: u64)
        ensures { self.new ≡ hurried self.old (min now latest) }
    {
        let soon = now.min(LATEST) + self.times.beat() / 256;
        self.beat_at = self.beat_at.min(soon);
        self.ask_at = self.ask_at.min(soon);
    }

    /// The replica of index `from` sent what says this of it. A sign of life is a PREPARE, COMMIT, STARTVIEW or
    /// NEWSTATE of the own view, from that view's primary, and nothing else. A RECOVERY of that primary says that it
    /// has lost its state.
    pub fn hear(&mut self, from: u64, sign: Sign, now: u64)
        ensures { self.new ≡ heard self.old from sign (min now latest) }
    {
        let now = now.min(LATEST);
        match sign {
            Sign::Leads { view_number } => self.hear_leader(from, view_number, now),
            Sign::Lost => self.hear_loss(from, now),
            Sign::Part => self.hear_part(from, now),
            Sign::Taken => self.hear_taken(from, now),
            Sign::Other => {}
        }
    }

    /// A message by which its sender leads this view.
    fn hear_leader(&mut self, from: u64, view_number: u64, now: u64)
        requires { now ≤ latest }
        ensures { self.new ≡ heard self.old from (sign.Leads view_number) now }
    {
        if from == self.primary() && view_number == self.view_number {
            self.silent_since = now;
            self.lost_since = None;
        }
    }

    /// A message by which its sender has lost its state.
    fn hear_loss(&mut self, from: u64, now: u64)
        requires { now ≤ latest }
        ensures { self.new ≡ heard self.old from sign.Lost now }
    {
        if from == self.primary() {
            if self.lost_since.is_none() {
                self.lost_since = Some(now);
            }
            self.ask_at = self.ask_at.min(now + self.spread());
        }
    }

    /// Whether the replica waits for what this one sends.
    fn awaits(&self, from: u64) -> bool
        ensures { result ≡ awaits self.now.status self.now from }
    {
        match self.status {
            Status::Normal => from == self.primary(),
            Status::ViewChange => from == self.primary() || self.is_own(),
            Status::Recovering => true,
        }
    }

    /// A part of a long message.
    fn hear_part(&mut self, from: u64, now: u64)
        requires { now ≤ latest }
        ensures { self.new ≡ heard self.old from sign.Part now }
    {
        if !self.awaits(from) {
            return;
        }
        self.silent_since = now;
        match self.status {
            Status::Normal => {}
            Status::ViewChange => self.is_long = true,
            Status::Recovering => self.beat_at = self.beat_at.max(now + self.times.beat()),
        }
    }

    /// A part of a long message was taken.
    fn hear_taken(&mut self, to: u64, now: u64)
        requires { now ≤ latest }
        ensures { self.new ≡ heard self.old to sign.Taken now }
    {
        match self.status {
            Status::Normal | Status::Recovering => {}
            Status::ViewChange => {
                if to == self.primary() {
                    self.silent_since = now;
                    self.is_long = true;
                }
            }
        }
    }
}
