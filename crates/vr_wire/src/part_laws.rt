//! Laws of messages in parts.

ghost use Rattle.vr_wire.specs.PartLaws.{WrittenIsSaying, PartsGiveMessage, FramesGiveMessage, OnlyPartsGiveMessage};

use ldap_op::{is_op, one_op};

/// What is written of a message in range says that message.
pub fn is_saying()
    ensures { WrittenIsSaying }
{
    is_op();
}

/// The parts of a message, taken in their order, give that message at the last.
pub fn parts_give_message()
    ensures { PartsGiveMessage }
{
    one_op();
}

/// The frames of a message, its one frame or its parts, taken in their order, give that message at the last.
pub fn frames_give_message()
    ensures { FramesGiveMessage }
{
    one_op();
}

/// A message comes of a part only where all its parts were taken one after the other.
pub fn only_parts_give_message()
    ensures { OnlyPartsGiveMessage }
{}
