//! Conversations: a session whose messages may be served by one directory after the other. Pieces of its stream come
//! in, and the octets of its responses are kept until they are sent. Sockets, threads and whose turn it is are above.
ghost use Rattle.std.specs.Prelude.{◌≡◌, ◌≤◌, ◌↔◌, ◌++◌, min, IsFalse, drop, length, Option, Some, None, IfSome, OnOk, OnErr};
ghost use Rattle.std.specs.Option.{option_map};
ghost use Rattle.session_handler.specs.Session.{at_first};
ghost use Rattle.session_handler.specs.View.{config_view};
ghost use Rattle.ldap_session.specs.Octets.{joined};
ghost use Rattle.ldap_session.specs.private.Octets.{HasGrown};
ghost use Rattle.ldap_session.specs.Progress.{IsAtLast};
ghost use Rattle.ldap_session.specs.Waiting.{due, bind_next, is_search_next};
ghost use Rattle.ldap_session.specs.View.{ConversationValue, conversation_view};
ghost use Rattle.ldap_session.specs.Conversing.{IsFresh, Hears, StepsTo, StaysOver, Continues};
ghost use Rattle.ldap_session.specs.private.Conversing.{Keeps};

use crate::due::{Due, Step};
use crate::end::SessionEnd;
use crate::session::Session;
use bytes::BytesMut;
use session_handler::{AnswerError, Answered, Config, Directory, Next};
use std::alloc::{AllocError, Global};

/// Responses of so many octets are taken over as they are, where nothing is unsent. To copy fewer costs less: the room
/// behind what is taken over is filled with zeros, up to 16,384.
const LARGE: usize = 65_536;

/// Puts responses behind octets, or takes large ones over where there are none; whether there was memory for that.
fn put_behind(octets: &mut BytesMut, responses: Vec<u8>) -> bool
    ensures { HasGrown octets.old.items octets.new.items responses.items result }
{
    if octets.is_empty() && responses.len() >= LARGE {
        *octets = BytesMut::from_vec(responses);
        return true;
    }
    match octets.extend_from_slice(&responses) {
        Ok(()) => true,
        Err(_) => false,
    }
}

/// A session, with what is heard and not answered, and what is answered and not sent.
pub struct Conversation {
    session: Session,
    unsent: BytesMut,
    /// How many octets of memory are kept for those that are unsent, with those before them that were sent.
    room: usize,
    end: Option<SessionEnd>,
}

// Not derived: see "What the gate takes" in docs/ARCHITECTURE.md.
impl Drop for Conversation {
    fn drop(self) {
        let Conversation {
            session: _,
            unsent: _,
            room: _,
            end: _,
        } = self;
    }
}

impl Conversation {
    /// A conversation in which nothing was heard and nothing said.
    pub fn new(alloc: Global) -> Conversation
        ensures { IsFresh (conversation_view result) }
    {
        Conversation {
            session: Session::new(alloc),
            unsent: BytesMut::new(alloc),
            room: 0,
            end: None,
        }
    }

    /// Takes the next piece of the stream. Want of memory is the only error, and changes nothing.
    pub fn hear(&mut self, piece: &[u8]) -> Result<(), AllocError>
        ensures ok { OnOk result (Hears (conversation_view self.old) piece.now (conversation_view self.new)) }
        ensures err { OnErr result (conversation_view self.new ≡ conversation_view self.old) }
    {
        self.session.feed(piece)
    }

    /// What stands next. Only an update may have to wait for others.
    pub fn due(&self) -> Due
        ensures { result ≡ due (conversation_view self.now).end (conversation_view self.now).session }
    {
        match self.end {
            Some(_) => Due::Nothing,
            None => self.session.due(),
        }
    }

    /// The name in the bind that stands next, which is empty for nobody; none, where no bind stands next.
    pub fn bind_next(&self) -> Option<&str>
        ensures { option_map (λ name. name.now) result
            ≡ bind_next (conversation_view self.now).end (conversation_view self.now).session.framed }
    {
        match self.end {
            Some(_) => None,
            None => self.session.bind_next(),
        }
    }

    /// Whether a search stands next.
    pub fn is_search_next(&self) -> bool
        ensures { result ≡ is_search_next (conversation_view self.now).end (conversation_view self.now).session.framed }
    {
        match self.end {
            Some(_) => false,
            None => self.session.is_search_next(),
        }
    }

    /// The conversation is over, and how.
    fn close(&mut self, end: SessionEnd) -> Step
        ensures result { result ≡ Step.Ends end }
        ensures closed { conversation_view self.new ≡ record (conversation_view self.old) { end = Some end } }
    {
        self.end = Some(end);
        Step::Ends(end)
    }

    /// Keeps what a message is answered with behind what is unsent.
    fn keep(&mut self, answered: Answered) -> Step
        ensures { (conversation_view self.old).end ≡ None
            → Keeps (conversation_view self.old) (conversation_view self.new) (joined answered.responses)
            answered.next result }
    {
        let next = answered.next;
        let is_kept = put_behind(&mut self.unsent, answered.into_octets());
        self.room = self.room.max(self.unsent.capacity());
        if !is_kept {
            return self.close(SessionEnd::NoMemory);
        }
        match next {
            Next::GoesOn => Step::Answered,
            Next::Unbound => self.close(SessionEnd::Unbound),
            Next::Disconnected => self.close(SessionEnd::Disconnected),
        }
    }

    /// Answers the next message by what this directory says, if a whole one is there; the messages before it may have
    /// been answered by others. The responses are kept behind those that are unsent. What is no message is answered by
    /// the Notice of Disconnection (RFC 4511 4.4.1).
    pub fn answer<D: Directory>(
        &mut self,
        alloc: Global,
        config: &Config,
        directory: &mut D,
    ) -> Step
        ensures step { (conversation_view self.old).end ≡ None
            → StepsTo D.allows (config_view config.now) (conversation_view self.old) (conversation_view self.new)
            directory.old directory.new result }
        // Whichever directories served the messages before, it is one session, and what is said are its responses.
        ensures continues { Continues D.allows (config_view config.now) (conversation_view self.old)
            (conversation_view self.new)
            directory.old directory.new result }
        // What is over stays over, and nothing is asked.
        ensures over { IfSome (conversation_view self.old).end
            (λ end. StaysOver (conversation_view self.old) (conversation_view self.new) directory.old directory.new
            end result) }
    {
        self.answer_unless_over(alloc, config, directory)
    }

    /// The same, step by step.
    fn answer_unless_over<D: Directory>(
        &mut self,
        alloc: Global,
        config: &Config,
        directory: &mut D,
    ) -> Step
        ensures step { (conversation_view self.old).end ≡ None
            → StepsTo D.allows (config_view config.now) (conversation_view self.old) (conversation_view self.new)
            directory.old directory.new result }
        ensures over { IfSome (conversation_view self.old).end
            (λ end. StaysOver (conversation_view self.old) (conversation_view self.new) directory.old directory.new
            end result) }
    {
        if let Some(end) = self.end {
            return Step::Ends(end);
        }
        match self.session.answer(alloc, config, directory) {
            Ok(None) => Step::Awaits,
            Ok(Some(answered)) => self.keep(answered),
            Err(AnswerError::TooLong) => self.close(SessionEnd::WriteFailed),
            Err(AnswerError::NoMemory) => self.close(SessionEnd::NoMemory),
        }
    }

    /// The octets that are said and not sent.
    pub fn unsent(&self) -> &[u8]
        ensures { result.now ≡ (conversation_view self.now).unsent }
    {
        self.unsent.as_slice()
    }

    /// So many of them are sent.
    pub fn sent(&mut self, count: usize)
        requires { count ≤ length (conversation_view self.old).unsent }
        ensures { conversation_view self.new
            ≡ record (conversation_view self.old) { unsent = drop count (conversation_view self.old).unsent } }
    {
        self.unsent.advance(count);
        if self.room >= LARGE {
            self.free_unsent();
        }
    }

    /// Gives back the memory that is kept for octets to be sent, where there are none.
    fn free_unsent(&mut self)
        ensures { conversation_view self.new ≡ conversation_view self.old }
    {
        if self.unsent.is_empty() {
            let alloc = *self.unsent.allocator();
            self.unsent = BytesMut::new(alloc);
            self.room = 0;
        }
    }

    /// How it ended; none, while it goes on.
    pub fn end(&self) -> Option<SessionEnd>
        ensures { result ≡ (conversation_view self.now).end }
    {
        self.end
    }

    /// How it ends where its stream ends, once all its messages are answered: between two messages, or inside one.
    pub fn end_of_input(&self) -> SessionEnd
        ensures { IsAtLast (conversation_view self.now).session result }
    {
        self.session.end_of_input()
    }

    /// Gives back the memory that is kept for octets and messages, where none are held: for a conversation that pauses.
    pub fn rest(&mut self)
        ensures { conversation_view self.new ≡ conversation_view self.old }
    {
        self.session.rest();
        self.free_unsent();
    }

    /// How many octets of memory messages take, at most, that become whole by so many further octets.
    pub fn weight_of(&self, count: usize) -> usize {
        self.session.weight_of(count)
    }

    /// How many octets of memory it keeps: for octets that were heard, messages that wait, and octets that are unsent.
    pub fn held(&self) -> usize
        ensures heard { min (length (conversation_view self.now).session.framed.rest) 18446744073709551615 ≤ result }
        ensures unsent { length (conversation_view self.now).unsent ≤ result }
    {
        let unsent = self.room.max(self.unsent.capacity());
        self.session.held().saturating_add(unsent)
    }

    /// Whether it is bound as the manager.
    pub fn is_bound(&self) -> bool
        ensures { IsFalse result ↔ ((conversation_view self.now).session.state.identity ≡ at_first.identity) }
    {
        self.session.is_bound()
    }
}
