//! Laws of the grammar of frames.

ghost use Rattle.vr_wire.specs.Laws.{FramesHaveOneMessage, NoFrameBeginsAnother, WrittenIsFrame};

use ldap_op::{is_op, one_op};

/// Octets are a frame of one cluster, one sender and one message at most.
pub fn one_frame()
    ensures { FramesHaveOneMessage }
{
    one_op();
}

/// No frame is a proper beginning of another.
pub fn no_beginning()
    ensures { NoFrameBeginsAnother }
{}

/// What is written for a message in range, within the limit, is a frame of it.
pub fn is_frame()
    ensures { WrittenIsFrame }
{
    is_op();
}
