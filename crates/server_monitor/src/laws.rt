//! Laws of lines that are logged.
ghost use Rattle.server_monitor.specs.Lines.{CountsAll};

/// Notes that wait stand for all lines that were said since the last that was taken, whatever was said: a law on the
/// definitions, so its body is empty.
pub fn none_uncounted()
    ensures { CountsAll }
{}
