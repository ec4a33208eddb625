//! Keeps what the sessions at their places hold, and says whose is to be ended. One thread at a time.
ghost use Rattle.std.specs.Prelude.{◌≡◌, ◌≤◌, ◌↔◌, IsTrue, List, Option, None, IfOk, IfSome, IfNone, replicate, slice_set};
ghost use Rattle.session_turns.specs.Holding.{rank, kept, IsRather, NoneRather, HoldsAt};
ghost use Rattle.session_turns.specs.private.Below.{IsAbove};

use std::alloc::{AllocError, Global};
use std::marker::Model;

/// Who holds fewer octets is never ended for what others want.
const LEAST: u64 = 4_096;

/// What a bound session ranks below an anonymous one, whatever they hold.
const ANONYMOUS: u128 = 18_446_744_073_709_551_616;

/// What a session holds.
#[derive(Clone, Copy, Debug)]
pub struct Holder {
    pub octets: u64,
    /// Whether it is bound, as the manager.
    pub is_bound: bool,
}

/// What the sessions at their places hold, by place.
#[derive(Drop)]
pub struct Holders {
    holders: Vec<Option<Holder>>,
}

impl Model for Holders {
    ghost use Rattle.std.specs.Prelude.{List, Option};
    ghost use Rattle.session_turns.specs.declared.holders.Holder.{Holder};
    ghost use Rattle.session_turns.specs.Holding.{AllHoldEnough};

    ghost Value = { List (Option Holder) };

    ghost view = { λ h. h.holders.items };

    ghost invariant = { λ h. AllHoldEnough h.holders.items };
}

impl Holder {
    /// Whether its session may be ended for what it holds.
    pub fn may_end(&self) -> bool
        ensures { IsTrue result ↔ (4096 ≤ self.now.octets) }
    {
        self.octets >= LEAST
    }

    /// How early its session is ended: an anonymous one before a bound one, and of alike ones the one that holds more.
    fn rank(&self) -> u128
        ensures { result ≡ rank self.now }
    {
        if self.is_bound {
            u128::from(self.octets)
        } else {
            u128::from(self.octets) + ANONYMOUS
        }
    }
}

/// What is kept of a holder: nothing, where it holds too little to be ended for it.
fn kept(holder: Holder) -> Option<Holder>
    ensures { result ≡ kept holder }
{
    if holder.octets < LEAST {
        None
    } else {
        Some(holder)
    }
}

impl Holders {
    /// So many places, at which nothing is held.
    pub fn new(alloc: Global, size: usize) -> Result<Holders, AllocError>
        ensures { IfOk result (λ h. h ≡ replicate size None) }
    {
        Ok(Holders {
            holders: vec![in alloc; None; size]?,
        })
    }

    /// The session at this place holds so much.
    pub fn put(&mut self, place: usize, holder: Holder)
        ensures { self.new ≡ slice_set self.old place (kept holder) }
    {
        if place < self.holders.len() {
            self.holders[place] = kept(holder);
        }
    }

    /// No session is at this place.
    pub fn take(&mut self, place: usize)
        ensures { self.new ≡ slice_set self.old place None }
    {
        if place < self.holders.len() {
            self.holders[place] = None;
        }
    }

    /// What the session at a place holds, if there is one that holds enough.
    fn holder(&self, place: usize) -> Option<Holder>
        ensures some { IfSome result (λ h. HoldsAt self.now place h × (4096 ≤ h.octets)) }
        ensures none { IfNone result ((h : Holder) → HoldsAt self.now place h → ⊥) }
    {
        match self.holders.get(place).copied() {
            Some(Some(holder)) => Some(holder),
            Some(None) | None => None,
        }
    }

    /// How the session at a place ranks, where that is more than this.
    fn above(&self, place: usize, least: u128) -> Option<u128>
        ensures some { IfSome result (IsAbove self.now place least) }
        ensures none { IfNone result ((h : Holder) → HoldsAt self.now place h → rank h ≤ least) }
    {
        let rank = self.holder(place)?.rank();
        if rank > least { Some(rank) } else { None }
    }

    /// The place whose session is to be ended where one that holds this wants more: an anonymous one before the
    /// manager's, and of alike ones the one that holds most. None, where that is the one that wants more.
    pub fn rather(&self, own: Holder) -> Option<usize>
        ensures some { IfSome result (IsRather self.now own) }
        ensures none { IfNone result (NoneRather self.now own) }
    {
        let mut first = None;
        let mut least = own.rank();
        for place in 0..self.holders.len() {
            if let Some(rank) = self.above(place, least) {
                first = Some(place);
                least = rank;
            }
        }
        first
    }
}
