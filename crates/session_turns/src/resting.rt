//! Keeps which seats rest, and whether one waits for sockets or looks at them. One thread at a time.
ghost use Rattle.std.specs.Prelude.{◌≡◌, ◌↔◌, IsTrue, false};
ghost use Rattle.session_turns.specs.Resting.{IsWatched, empty, begun, laid_down, called, call_of, left, chosen, calls, freed, whom, calls_after, choice};
ghost use Rattle.session_turns.specs.Resting.{WhoRestsIsWatched};

use std::marker::Model;

/// How many sessions are taken, at most, before it is looked which further sockets are ready.
const UNLOOKED: u32 = 16;

/// What a seat did before it was free.
#[derive(Clone, Copy, Debug, PartialEq, Eq)]
pub enum Was {
    /// It served a session.
    Serving,
    /// It was at rest, until it was called.
    Resting,
    /// It waited for sockets.
    Leading,
}

/// What a free seat does.
#[derive(Clone, Copy, Debug, PartialEq, Eq)]
pub enum Act {
    /// It takes the session whose turn it is.
    Serve,
    /// It waits for sockets.
    Lead,
    /// It rests until it is called.
    Rest,
}

/// Whom a thread calls.
#[derive(Clone, Copy, Debug, PartialEq, Eq)]
pub enum Call {
    Nobody,
    /// One of the seats at rest.
    Seat,
    /// The seat that waits for sockets: no other is free.
    Leader,
}

/// Which seats rest, and whether one waits for sockets or looks at them.
#[derive(Drop)]
pub struct Lead {
    is_led: bool,
    /// How many seats rest, and how many calls of one are under way.
    idle: u32,
    called: u32,
    /// How many sessions were taken since the last look.
    unlooked: u32,
    ghost watched: { IsWatched (record { is_led = is_led; idle = idle; called = called; unlooked = unlooked }) },
}

impl Model for Lead {
    ghost use Rattle.session_turns.specs.Resting.{LeadValue};

    ghost Value = { LeadValue };

    ghost view = { λ l. record { is_led = l.is_led; idle = l.idle; called = l.called; unlooked = l.unlooked } };
}

/// Whom a thread calls, and how many calls are under way then.
fn whom(is_led: bool, idle: u32, called: u32) -> (Call, u32)
    ensures call { result.0 ≡ whom is_led idle }
    ensures called { result.1 ≡ calls_after idle called }
{
    if idle > 0 {
        (Call::Seat, called.saturating_add(1))
    } else if is_led {
        (Call::Leader, called)
    } else {
        (Call::Nobody, called)
    }
}

/// What a free seat does.
fn choice(is_led: bool, unlooked: u32, ready: usize) -> Act
    ensures { result ≡ choice is_led unlooked ready }
{
    if is_led {
        if ready == 0 { Act::Rest } else { Act::Serve }
    } else if ready == 0 || unlooked >= UNLOOKED {
        Act::Lead
    } else {
        Act::Serve
    }
}

impl Lead {
    /// No seat rests, and none waits for sockets.
    pub fn new() -> Lead
        ensures { result ≡ empty }
    {
        Lead {
            is_led: false,
            idle: 0,
            called: 0,
            unlooked: 0,
        }
    }

    /// Whether a seat waits for sockets, or looks at them.
    pub fn is_led(&self) -> bool
        ensures { result ≡ self.now.is_led }
    {
        self.is_led
    }

    /// A seat that serves a session is to look which sockets are ready; whether it may. Where it may, it says when that
    /// ends.
    pub fn begin_look(&mut self) -> bool
        ensures may { IsTrue result ↔ (self.old.is_led ≡ false) }
        ensures begun { self.new ≡ begun self.old }
    {
        if self.is_led {
            return false;
        }
        *self = Lead {
            is_led: true,
            idle: self.idle,
            called: self.called,
            unlooked: 0,
        };
        true
    }

    /// The look has ended. Whom it calls: seats that came to rest meanwhile relied on it.
    pub fn end_look(&mut self) -> Call
        ensures call { result ≡ call_of (laid_down self.old) }
        ensures ended { self.new ≡ called (laid_down self.old) }
    {
        let (call, calls) = whom(false, self.idle, self.called);
        *self = Lead {
            is_led: false,
            idle: self.idle,
            called: calls,
            unlooked: self.unlooked,
        };
        call
    }

    /// A session has lined up. Whom its thread calls.
    pub fn line_up(&mut self) -> Call
        ensures call { result ≡ call_of self.old }
        ensures called { self.new ≡ called self.old }
    {
        let (call, calls) = whom(self.is_led, self.idle, self.called);
        *self = Lead {
            is_led: self.is_led,
            idle: self.idle,
            called: calls,
            unlooked: self.unlooked,
        };
        call
    }

    /// What a seat does that is free, and whom it calls, where so many sessions are ready.
    pub fn free(&mut self, was: Was, ready: usize) -> (Act, Call)
        ensures act { result.0 ≡ chosen (left was self.old) ready }
        ensures call { result.1 ≡ calls (chosen (left was self.old) ready) (left was self.old) ready }
        ensures freed { self.new ≡ freed was self.old ready }
    {
        let (is_led, idle, calls) = match was {
            Was::Serving => (self.is_led, self.idle, self.called),
            Was::Resting => (
                self.is_led,
                self.idle.saturating_sub(1),
                self.called.saturating_sub(1),
            ),
            Was::Leading => (false, self.idle, self.called),
        };
        let unlooked = self.unlooked;
        match choice(is_led, unlooked, ready) {
            Act::Rest => {
                *self = Lead {
                    is_led,
                    idle: idle.saturating_add(1),
                    called: calls,
                    unlooked,
                };
                (Act::Rest, Call::Nobody)
            }
            Act::Lead => {
                *self = Lead {
                    is_led: true,
                    idle,
                    called: calls,
                    unlooked: 0,
                };
                (Act::Lead, Call::Nobody)
            }
            Act::Serve => {
                let (call, called) = if !is_led || ready > 1 {
                    whom(is_led, idle, calls)
                } else {
                    (Call::Nobody, calls)
                };
                *self = Lead {
                    is_led,
                    idle,
                    called,
                    unlooked: unlooked.saturating_add(1),
                };
                (Act::Serve, call)
            }
        }
    }
}

/// Whatever threads do, while seats rest one waits for sockets or is called: a law on the definitions, so its body is
/// empty.
pub fn who_rests_is_watched()
    ensures { WhoRestsIsWatched }
{}
