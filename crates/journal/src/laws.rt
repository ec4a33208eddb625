//! A law about the definitions, as a function that does nothing: frames are read as what they were made of.
ghost use Rattle.journal.specs.Frames.{FramesAreRead};

/// The frames of strings are read as these strings, with any number of zeros behind them: a law on the definitions.
pub fn frames_are_read()
    ensures { FramesAreRead }
{}
