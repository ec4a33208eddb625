//! Lines that wait to be written. They come in at the back, equal ones in a row as one note, and leave as notes at the
//! front.
ghost use Rattle.std.specs.Prelude.{◌≡◌, ◌↔◌, ◌<◌, ◌≤◌, ℕ, List, ◌∷◌, ◌++◌, [], length, IfSome, IfNone, IfOk, IsTrue, IsFalse, string_bytes};
ghost use Rattle.server_monitor.specs.Lines.{HasSaid, HasDropped, EndsWith, NoteValue, note_of, line, one_more};

use crate::notes::Note;
use std::alloc::{AllocError, Global};
use std::collections::VecDeque;
use std::marker::Model;

/// Lines in the order in which they were said, as notes: one for each run of equal lines, at most so many, and one that
/// counts the lines for which there was no place. No line is lost without being counted.
pub struct Lines {
    kept: VecDeque<Note, Global>,
    /// How many lines were dropped since the last that was kept; 18446744073709551615 stands for any greater number
    /// too.
    dropped: u64,
    most: usize,
    /// How many lines were dropped in all, for monitors.
    dropped_in_all: u64,
}

// Not derived: see "What the gate takes" in docs/ARCHITECTURE.md.
impl Drop for Lines {
    fn drop(self) {
        let Lines {
            kept: _,
            dropped: _,
            most: _,
            dropped_in_all: _,
        } = self;
    }
}

impl Model for Lines {
    ghost use Rattle.std.specs.Prelude.{◌≤◌, ◌++◌, length, map};
    ghost use Rattle.std.specs.VecDeque.{deque_capacity};
    ghost use Rattle.server_monitor.specs.Lines.{LinesValue, note_of, perhaps_dropped};

    ghost Value = { LinesValue };

    ghost view = { λ l. record { notes = map note_of l.kept.items ++ perhaps_dropped l.dropped; most = l.most } };

    ghost invariant = { λ l. (length l.kept.items ≤ l.most) × (l.most ≤ deque_capacity l.kept) };
}

impl Lines {
    /// No line waits. There are places for so many notes.
    pub fn new(alloc: Global, most: usize) -> Result<Lines, AllocError>
        ensures { IfOk result (λ l. l ≡ record { notes = []; most = most }) }
    {
        Ok(Lines {
            kept: VecDeque::with_capacity(alloc, most)?,
            dropped: 0,
            most,
            dropped_in_all: 0,
        })
    }

    /// Whether nothing waits.
    pub fn is_empty(&self) -> bool
        ensures { IsTrue result ↔ (self.now.notes ≡ []) }
    {
        self.kept.is_empty() && self.dropped == 0
    }

    /// How many notes wait.
    pub fn len(&self) -> usize
        ensures { result ≡ length self.now.notes }
    {
        if self.dropped > 0 {
            self.kept.len() + 1
        } else {
            self.kept.len()
        }
    }

    /// Counts a line with the last note where that has its text; whether it has.
    fn count_again(&mut self, text: &str) -> bool
        ensures yes { IsTrue result → (before : List NoteValue) × (times : ℕ)
            × (self.old.notes ≡ before ++ line text.now times ∷ [])
            × (self.new ≡ record self.old { notes = before ++ line text.now (one_more times) ∷ [] }) }
        ensures no { IsFalse result → (EndsWith text.now self.old.notes → ⊥) × (self.new ≡ self.old) }
    {
        if self.dropped > 0 {
            return false;
        }
        let Some(mut last) = self.kept.pop_back() else {
            return false;
        };
        let is_again = last.count(text);
        self.kept.push_back_reserved(last);
        is_again
    }

    /// Whether there is a place for a line, and for the note of those that were dropped before it.
    fn has_place(&self) -> bool
        ensures yes { IsTrue result → length self.now.notes < self.now.most }
        ensures no { IsFalse result → self.now.most ≤ length self.now.notes }
    {
        if self.dropped > 0 {
            self.most - self.kept.len() > 1
        } else {
            self.most - self.kept.len() > 0
        }
    }

    /// Keeps a line, behind the note of those that were dropped before it.
    fn keep(&mut self, text: String)
        requires { length self.old.notes < self.old.most }
        ensures { self.new ≡ record self.old { notes = self.old.notes ++ line (string_bytes text) 1 ∷ [] } }
    {
        let line = Note::Line { text, times: 1 };
        if self.dropped > 0 {
            let count = self.dropped;
            self.dropped = 0;
            self.kept.push_back_reserved(Note::Dropped { count });
            self.kept.push_back_reserved(line);
        } else {
            self.kept.push_back_reserved(line);
        }
    }

    /// A line that can't be kept, or couldn't be made for want of memory: it is counted.
    pub fn lose(&mut self)
        ensures dropped { HasDropped self.old.notes self.new.notes }
        ensures most { self.new.most ≡ self.old.most }
    {
        self.dropped = self.dropped.saturating_add(1);
        self.dropped_in_all = self.dropped_in_all.wrapping_add(1);
    }

    /// How many lines were dropped in all.
    pub fn dropped_in_all(&self) -> u64 {
        self.dropped_in_all
    }

    /// A line is said. It takes no memory.
    pub fn say(&mut self, text: String)
        ensures said { HasSaid self.old.most (string_bytes text) self.old.notes self.new.notes }
        ensures most { self.new.most ≡ self.old.most }
    {
        if self.count_again(&text) {
            return;
        }
        if self.has_place() {
            self.keep(text);
        } else {
            self.lose();
        }
    }

    /// The note at the front, which is the oldest.
    pub fn take(&mut self) -> Option<Note>
        ensures some { IfSome result (λ n. self.old ≡ record self.new { notes = note_of n ∷ self.new.notes }) }
        ensures none { IfNone result ((self.old.notes ≡ []) × (self.new ≡ self.old)) }
    {
        if let Some(note) = self.kept.pop_front() {
            return Some(note);
        }
        if self.dropped == 0 {
            return None;
        }
        let count = self.dropped;
        self.dropped = 0;
        Some(Note::Dropped { count })
    }
}
