//! Serves a session from a reader's octets to a writer's.
ghost use Rattle.std.specs.Prelude.{◌≡◌, ◌<◌, [], length};
ghost use Rattle.std.specs.Bool.{OnTrue};
ghost use Rattle.session_handler.specs.View.{config_view};
ghost use Rattle.ldap_session.specs.Octets.{HasWritten};
ghost use Rattle.ldap_session.specs.View.{conversation_view};
ghost use Rattle.ldap_session.specs.Serving.{Served};
ghost use Rattle.ldap_session.specs.private.Steps.{HasPutLast, HasGot, HasWorked, HasFlushed, HasFed, IsAllSent, OnGoing};

use crate::conversation::Conversation;
use crate::due::{Due, Step};
use crate::end::SessionEnd;
use crate::writing::hand_over;
use session_handler::{Config, Directory};
use std::alloc::Global;
use std::io::{ErrorKind, Read, Write};

/// How many octets are read at once, at most.
const PIECE: usize = 8192;

/// Whether a session goes on.
#[derive(Clone, Copy, Debug)]
pub enum Flow {
    Goes,
    Ends(SessionEnd),
}

/// What a read gave.
#[derive(Clone, Copy, Debug)]
pub enum Got {
    /// So many octets; none, where the read was interrupted.
    Octets(usize),
    End,
    Failed,
}

/// Reads once.
fn read_some<R: Read>(reader: &mut R, buffer: &mut [u8]) -> Got
    requires room { 0 < length buffer.old }
    ensures { HasGot (R.remaining reader.old) (R.remaining reader.new) buffer.new result }
{
    match reader.read(buffer) {
        Ok(0) => Got::End,
        Ok(count) => Got::Octets(count),
        Err(error) => {
            if error.kind() == ErrorKind::Interrupted {
                Got::Octets(0)
            } else {
                Got::Failed
            }
        }
    }
}

/// Writes what is unsent; where an update comes next, which may have to wait, the client gets it before. Whether the
/// writer took it all.
fn put_unsent<W: Write>(writer: &mut W, conversation: &mut Conversation) -> bool
    ensures written { HasWritten (W.contents writer.old) (W.contents writer.new)
        (conversation_view conversation.old).unsent result }
    ensures sent { OnTrue result (conversation_view conversation.new ≡ record (conversation_view conversation.old)
        { unsent = [] }) }
    ensures session { (conversation_view conversation.new).session ≡ (conversation_view conversation.old).session }
{
    let is_urgent = conversation.due() == Due::Update;
    let octets = conversation.unsent();
    let count = octets.len();
    if !hand_over(writer, octets, is_urgent) {
        return false;
    }
    conversation.sent(count);
    true
}

/// Writes what is unsent of a conversation that has ended so; how the session ends.
fn put_last<W: Write>(
    writer: &mut W,
    conversation: &mut Conversation,
    end: SessionEnd,
) -> SessionEnd
    ensures put { HasPutLast (W.contents writer.old) (W.contents writer.new)
        (conversation_view conversation.old).unsent end result }
    ensures session { (conversation_view conversation.new).session ≡ (conversation_view conversation.old).session }
{
    if put_unsent(writer, conversation) {
        end
    } else {
        SessionEnd::WriteFailed
    }
}

/// Answers all whole messages that are there.
fn answer_ready<W: Write, D: Directory>(
    alloc: Global,
    conversation: &mut Conversation,
    config: &Config,
    directory: &mut D,
    writer: &mut W,
) -> Flow
    requires { IsAllSent (conversation_view conversation.old) }
    ensures worked { HasWorked D.allows (config_view config.now) directory.old directory.new
        (conversation_view conversation.old).session
        (conversation_view conversation.new).session (W.contents writer.old) (W.contents writer.new) result }
    ensures sent { OnGoing result (IsAllSent (conversation_view conversation.new)) }
{
    loop {
        match conversation.answer(alloc, config, directory) {
            Step::Awaits => return Flow::Goes,
            Step::Answered => {
                if !put_unsent(writer, conversation) {
                    return Flow::Ends(SessionEnd::WriteFailed);
                }
            }
            Step::Ends(end) => return Flow::Ends(put_last(writer, conversation, end)),
        }
    }
}

/// Sees to it that what is written goes on its way.
fn flushed<W: Write>(writer: &mut W, flow: Flow) -> Flow
    ensures { HasFlushed (W.contents writer.old) (W.contents writer.new) flow result }
{
    match (flow, writer.flush()) {
        (Flow::Goes, Err(_)) => Flow::Ends(SessionEnd::WriteFailed),
        _ => flow,
    }
}

/// Answers the messages that a piece of the stream completes.
fn answer_piece<W: Write, D: Directory>(
    alloc: Global,
    conversation: &mut Conversation,
    piece: &[u8],
    config: &Config,
    directory: &mut D,
    writer: &mut W,
) -> Flow
    requires { IsAllSent (conversation_view conversation.old) }
    ensures fed { HasFed D.allows (config_view config.now) directory.old directory.new
        (conversation_view conversation.old).session
        (conversation_view conversation.new).session piece.now (W.contents writer.old) (W.contents writer.new) result }
    ensures sent { OnGoing result (IsAllSent (conversation_view conversation.new)) }
{
    match conversation.hear(piece) {
        Ok(()) => {
            let flow = answer_ready(alloc, conversation, config, directory, writer);
            flushed(writer, flow)
        }
        Err(_) => Flow::Ends(SessionEnd::NoMemory),
    }
}

/// Serves one client: reads its stream, answers its messages one after the other, each as soon as it is whole, and
/// writes the responses, up to what ends the session. The 18446744073709551616th read counts as one that fails.
pub fn serve<R: Read, W: Write, D: Directory>(
    alloc: Global,
    reader: &mut R,
    writer: &mut W,
    directory: &mut D,
    config: &Config,
) -> SessionEnd
    ensures { Served D.allows (config_view config.now) directory.old directory.new (R.remaining reader.old)
        (R.remaining reader.new)
        (W.contents writer.old) (W.contents writer.new) result }
{
    let mut conversation = Conversation::new(alloc);
    let mut buffer = [0; PIECE];
    for _ in 0..u64::MAX {
        match read_some(reader, &mut buffer) {
            Got::End => return conversation.end_of_input(),
            Got::Failed => return SessionEnd::ReadFailed,
            Got::Octets(count) => {
                let piece = &buffer[..count];
                match answer_piece(alloc, &mut conversation, piece, config, directory, writer) {
                    Flow::Goes => {}
                    Flow::Ends(end) => return end,
                }
            }
        }
    }
    SessionEnd::ReadFailed
}
