//! Decides what is said of a replica that is dialed: once for each change whether it is reached.
ghost use Rattle.std.specs.Prelude.{◌≡◌, not, false};
ghost use Rattle.peer_messages.specs.private.Reachability.{news, missed_after};

/// What is said of a replica.
#[derive(Clone, Copy, Debug, PartialEq, Eq)]
pub enum News {
    /// It can't be reached.
    Unreached,
    /// It is reached again, after it was said that it can't be.
    Reached,
}

/// What was said last of a replica.
#[derive(Clone, Copy)]
pub struct Reachability {
    /// Whether it was said last that it can't be reached.
    pub is_missed: bool,
}

impl Reachability {
    /// Nothing was said yet.
    pub fn new() -> Reachability
        ensures { result.is_missed ≡ false }
    {
        Reachability { is_missed: false }
    }

    /// It was dialed, and reached or not: what is said, if anything.
    pub fn note(&mut self, is_reached: bool) -> Option<News>
        ensures news { result ≡ news self.old.is_missed is_reached }
        ensures said { self.new.is_missed ≡ missed_after self.old.is_missed result }
        ensures as_is { self.new.is_missed ≡ not is_reached }
    {
        if is_reached != self.is_missed {
            return None;
        }
        self.is_missed = !is_reached;
        if is_reached {
            Some(News::Reached)
        } else {
            Some(News::Unreached)
        }
    }
}
