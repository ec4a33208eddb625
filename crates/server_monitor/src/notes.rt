//! What is written on standard error: notes, each of which stands for lines that were said.
ghost use Rattle.std.specs.Prelude.{◌≡◌, ℕ, IsTrue, IsFalse};
ghost use Rattle.server_monitor.specs.Lines.{note_of, line, one_more, IsLineOf};

use std::fmt::{self, Display, Formatter, Write};

/// One line of standard error.
#[derive(Drop)]
pub enum Note {
    /// This text, which was said so many times in a row; 18446744073709551615 stands for any greater number too.
    Line { text: String, times: u64 },
    /// So many lines for which there was no room; 18446744073709551615 stands for any greater number too.
    Dropped { count: u64 },
}

impl Note {
    /// Counts the text once more where it is this note's own; whether it is.
    pub fn count(&mut self, said: &str) -> bool
        ensures yes { IsTrue result → (times : ℕ) × (note_of self.old ≡ line said.now times)
            × (note_of self.new ≡ line said.now (one_more times)) }
        ensures no { IsFalse result → (note_of self.new ≡ note_of self.old) × (IsLineOf said.now (note_of self.old) →
            ⊥) }
    {
        match self {
            Note::Line { text, times } => {
                if text.as_str() == said {
                    *times = times.saturating_add(1);
                    true
                } else {
                    false
                }
            }
            Note::Dropped { count: _ } => false,
        }
    }
}

impl Display for Note {
    fn fmt<W: Write>(&self, f: &mut Formatter<W>) -> fmt::Result {
        match self {
            Note::Line { text, times: 1 } => write!(f, "{text}"),
            Note::Line { text, times } => write!(f, "{text} .. (said {times} times)"),
            Note::Dropped { count: 1 } => write!(f, "1 line was dropped"),
            Note::Dropped { count } => write!(f, "{count} lines were dropped"),
        }
    }
}
