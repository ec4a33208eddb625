//! The laws of shortened messages.
ghost use Rattle.vr_short.specs.Pairing.{NotesArePaired};
ghost use Rattle.vr_short.specs.Laws.{FilledIsSent, NotesAreRead, ReadIsSent};

use vr_wire::{Op, one_frame};
use vr_world::beginnings_agree;

/// Whatever happened, what a replica fills is the message that was sent.
pub fn filled_is_sent<P>()
    ensures { FilledIsSent P }
{
    beginnings_agree::<P>();
}

/// Also where it was read from a frame.
pub fn read_is_sent()
    ensures { ReadIsSent }
{
    filled_is_sent::<Op>();
    one_frame();
}

/// A note is read as what was noted.
pub fn notes_are_read()
    ensures { NotesAreRead }
{}

/// A message that comes is taken with its own note, whichever others are lost behind theirs.
pub fn notes_are_paired<P>()
    ensures { NotesArePaired P }
{}
