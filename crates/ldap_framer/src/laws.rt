//! Laws of a stream, however it is cut.

ghost use Rattle.std.specs.Prelude.{◌≡◌, ◌++◌, ℕ, List};
ghost use Rattle.ldap_msg.specs.Messages.{MessageValue};
ghost use Rattle.ldap_framer.specs.Stream.{Ending, awaits, Reads, IsSameEnding};

/// What is left of a stream and the next piece go on where the stream stood: it does not matter where
/// a stream is cut.
pub fn any_pieces()
    ensures { (stream piece rest : List ℕ) (ms ns : List MessageValue) (ending : Ending)
        → Reads stream ms (awaits rest) → Reads (rest ++ piece) ns ending
        → Reads (stream ++ piece) (ms ++ ns) ending }
{}

/// A stream has one reading: its messages are these and no others, and what is behind them is awaited
/// or stops the stream, not both.
pub fn one_reading()
    ensures { (stream : List ℕ) (ms ns : List MessageValue) (ending other : Ending)
        → Reads stream ms ending → Reads stream ns other
        → (ms ≡ ns) × IsSameEnding ending other }
{}
