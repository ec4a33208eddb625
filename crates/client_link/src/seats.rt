//! How many clients wait for a place, and how many places are being given up for them.
ghost use Rattle.std.specs.Prelude.{◌≡◌, ◌+◌, ◌-◌, ◌<◌, ◌≤◌, IsTrue, IsFalse, min};

/// Who waits. No more places are given up than clients wait for one.
#[derive(Drop)]
pub struct Seats {
    waiting: u32,
    leaving: u32,
    ghost no_more_than_wanted: { leaving ≤ waiting },
}

impl Seats {
    /// Nobody waits.
    pub fn new() -> Seats
        ensures { (result.waiting ≡ 0) × (result.leaving ≡ 0) }
    {
        Seats {
            waiting: 0,
            leaving: 0,
        }
    }

    /// A client waits; 4294967295 stands for any greater number too.
    pub fn wait(&mut self)
        ensures waiting { self.new.waiting ≡ min (self.old.waiting + 1) 4294967295 }
        ensures leaving { self.new.leaving ≡ self.old.leaving }
    {
        let waiting = self.waiting.saturating_add(1);
        *self = Seats {
            waiting,
            leaving: self.leaving,
        };
    }

    /// A client that waited has a place.
    pub fn sit(&mut self)
        ensures waiting { self.new.waiting ≡ self.old.waiting - 1 }
        ensures leaving { self.new.leaving ≡ self.old.leaving - 1 }
    {
        let leaving = self.leaving.saturating_sub(1);
        let waiting = self.waiting.saturating_sub(1);
        *self = Seats { waiting, leaving };
    }

    /// Gives up a place, where a client waits for whom none is given up yet; whether it does.
    pub fn give_up(&mut self) -> bool
        ensures yes { IsTrue result → (self.old.leaving < self.old.waiting)
            × (self.new.leaving ≡ self.old.leaving + 1) }
        ensures no { IsFalse result → (self.old.waiting ≡ self.old.leaving) × (self.new.leaving ≡ self.old.leaving) }
        ensures waiting { self.new.waiting ≡ self.old.waiting }
    {
        if self.leaving >= self.waiting {
            return false;
        }
        *self = Seats {
            waiting: self.waiting,
            leaving: self.leaving + 1,
        };
        true
    }
}
