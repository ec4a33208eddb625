//! What another replica has said while this one runs, and whether a start of it remembers less: then its files are
//! older than what it said.
ghost use Rattle.std.specs.Prelude.{◌≡◌};
ghost use Rattle.peer_link.specs.Past.{after_greeting, after_saying, is_further, is_same_start, judged, nothing_said, reach_of, reached};
ghost use Rattle.peer_link.specs.Saying.{reach_held, reach_said, view_said};

use crate::claim::Claim;
use vr_state::message::Snapshot;
use vr_wire::{Op, PeerMessage};

/// How far a log goes: its last normal view first, then how many records it has.
#[derive(Clone, Copy, Debug, PartialEq, Eq)]
pub struct Reach {
    pub last_normal: u64,
    pub length: u64,
}

/// What another replica has said: its last start that greeted, and the greatest of what it said it was in and had.
#[derive(Clone, Copy, Debug, PartialEq, Eq)]
pub struct Past {
    /// The number of its last start that greeted, and that start's mark.
    pub start: u64,
    pub mark: u64,
    /// The greatest view that it said it was in.
    pub view: u64,
    /// The furthest log that it said it had.
    pub reach: Reach,
}

/// What a replica said that a start of it doesn't remember.
#[derive(Clone, Copy, Debug, PartialEq, Eq)]
pub enum Forgotten {
    /// A start of this number has greeted, and the new one's isn't greater.
    Start { said: u64 },
    /// It said it was in this view.
    View { said: u64 },
    /// It said that its log went so far.
    Log { said: Reach },
}

/// Whether one log goes further than another.
fn is_further(one: Reach, other: Reach) -> bool
    ensures { result ≡ is_further one other }
{
    other.last_normal < one.last_normal
        || (one.last_normal == other.last_normal && other.length < one.length)
}

/// How far a log is known to go that goes so far at least.
fn reached(old: Reach, new: Reach) -> Reach
    ensures { result ≡ reached old new }
{
    if is_further(new, old) { new } else { old }
}

/// How far the log of a start goes.
fn reach_of(claim: &Claim) -> Reach
    ensures { result ≡ reach_of claim.now }
{
    Reach {
        last_normal: claim.last_normal,
        length: claim.length,
    }
}

/// The view that the sender of a message is in; 0 where it names none that it is in.
fn view_said(message: &PeerMessage<Op>) -> u64
    ensures { result ≡ view_said message.now }
{
    match message {
        PeerMessage::Prepare { view_number, .. } => *view_number,
        PeerMessage::PrepareOk { view_number, .. } => *view_number,
        PeerMessage::Commit { view_number, .. } => *view_number,
        PeerMessage::StartViewChange { view_number } => *view_number,
        PeerMessage::DoViewChange { view_number, .. } => *view_number,
        PeerMessage::StartView { view_number, .. } => *view_number,
        PeerMessage::GetState { .. } => 0,
        PeerMessage::NewState { view_number, .. } => *view_number,
        PeerMessage::Recovery { .. } => 0,
        PeerMessage::RecoveryResponse { response, .. } => response.view_number,
    }
}

/// So many records of a log in this view.
fn reach_to(last_normal: u64, length: u64) -> Reach
    ensures { result ≡ record { last_normal = last_normal; length = length } }
{
    Reach {
        last_normal,
        length,
    }
}

/// How far a log goes that a response may hold.
fn reach_held(view_number: u64, held: &Option<Snapshot<Op>>) -> Reach
    ensures { result ≡ reach_held view_number held.now }
{
    match held {
        Some(held) => reach_to(view_number, held.log.len() as u64),
        None => reach_to(0, 0),
    }
}

/// How far the log of a message's sender goes, at least.
fn reach_said(message: &PeerMessage<Op>) -> Reach
    ensures { result ≡ reach_said message.now }
{
    match message {
        PeerMessage::Prepare {
            view_number,
            op_number,
            ..
        } => reach_to(*view_number, *op_number),
        PeerMessage::PrepareOk {
            view_number,
            op_number,
        } => reach_to(*view_number, *op_number),
        PeerMessage::Commit {
            view_number,
            commit_number,
        } => reach_to(*view_number, *commit_number),
        PeerMessage::StartViewChange { .. } => reach_to(0, 0),
        PeerMessage::DoViewChange { change, .. } => {
            reach_to(change.last_normal_view, change.log.len() as u64)
        }
        PeerMessage::StartView { view_number, held } => {
            reach_to(*view_number, held.log.len() as u64)
        }
        PeerMessage::GetState { .. } => reach_to(0, 0),
        PeerMessage::NewState {
            view_number,
            base,
            tail,
        } => reach_to(*view_number, base.saturating_add(tail.log.len() as u64)),
        PeerMessage::Recovery { .. } => reach_to(0, 0),
        PeerMessage::RecoveryResponse { response, .. } => {
            reach_held(response.view_number, &response.held)
        }
    }
}

impl Past {
    /// Nothing was said yet.
    pub fn new() -> Past
        ensures { result ≡ nothing_said }
    {
        Past {
            start: 0,
            mark: 0,
            view: 0,
            reach: reach_to(0, 0),
        }
    }

    /// What a start that greets doesn't remember of it; nothing, where it remembers all, or is the one that greeted
    /// last.
    pub fn judge(&self, claim: &Claim) -> Option<Forgotten>
        ensures { result ≡ judged self.now claim.now }
    {
        if self.start == claim.start && self.mark == claim.mark {
            None
        } else if claim.start <= self.start {
            Some(Forgotten::Start { said: self.start })
        } else if claim.view < self.view {
            Some(Forgotten::View { said: self.view })
        } else if claim.remembers && is_further(self.reach, reach_of(claim)) {
            Some(Forgotten::Log { said: self.reach })
        } else {
            None
        }
    }

    /// Takes note of a greeting that isn't refused.
    pub fn greet(&mut self, claim: &Claim)
        ensures { self.new ≡ after_greeting self.old claim.now }
    {
        self.start = claim.start;
        self.mark = claim.mark;
        self.view = self.view.max(claim.view);
        if claim.remembers {
            self.reach = reached(self.reach, reach_of(claim));
        }
    }

    /// Takes note of what a message says.
    pub fn hear(&mut self, message: &PeerMessage<Op>)
        ensures { self.new ≡ after_saying self.old (view_said message.now) (reach_said message.now) }
    {
        self.view = self.view.max(view_said(message));
        self.reach = reached(self.reach, reach_said(message));
    }
}
