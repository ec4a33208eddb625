//! A session. What a message asks of the directory is below; readers and writers are above.
ghost use Rattle.std.specs.Prelude.{◌≡◌, ◌≤◌, ◌↔◌, ◌++◌, [], ℕ, List, None, OnOk, OnErr, IsFalse, length, min};
ghost use Rattle.std.specs.Option.{option_map};
ghost use Rattle.session_handler.specs.ldap_msg.Messages.{MessageValue};
ghost use Rattle.ldap_framer.specs.Framed.{HasSeen};
ghost use Rattle.ldap_framer.specs.View.{room_of};
ghost use Rattle.session_handler.specs.Session.{at_first};
ghost use Rattle.session_handler.specs.View.{config_view};
ghost use Rattle.ldap_session.specs.View.{session_view};
ghost use Rattle.ldap_session.specs.Progress.{Answers, IsAtLast};
ghost use Rattle.ldap_session.specs.private.Progress.{IsNoMessage};
ghost use Rattle.ldap_session.specs.Waiting.{due_at_last, due_of, bind_name_in, bind_of, is_search_in, is_search_of};
ghost use Rattle.session_handler.specs.ldap_msg.View.{view};

use crate::due::Due;
use crate::end::SessionEnd;
use ldap_framer::{FrameFault, Framer, Message, ProtocolOp, Request, RequestKind};
use session_handler::{
    AnswerError, Answered, Config, Directory, State, disconnect, may_update, take,
};
use std::alloc::{AllocError, Global};

/// The name in a bind, which is empty for nobody; none, in any other message.
fn bind_name(message: &Message) -> Option<&str>
    ensures { option_map (λ name. name.now) result ≡ bind_name_in (view message.now).op }
{
    match &message.op {
        ProtocolOp::Request(Request::Bind(bind)) => Some(bind.name.as_str()),
        ProtocolOp::Request(_) | ProtocolOp::Response(_) => None,
    }
}

/// Whether a message is a search.
fn is_search(message: &Message) -> bool
    ensures { result ≡ is_search_in (view message.now).op }
{
    match &message.op {
        ProtocolOp::Request(request) => matches!(request.kind(), RequestKind::Search),
        ProtocolOp::Response(_) => false,
    }
}

/// A session: its stream as far as it is not answered, and who it is bound as. At its beginning it is anonymous.
pub struct Session {
    framer: Framer,
    state: State,
    /// How many octets of memory the messages take, at most, that became whole since none waited.
    decoded: usize,
}

// Not derived: see "What the gate takes" in docs/ARCHITECTURE.md.
impl Drop for Session {
    fn drop(self) {
        let Session {
            framer: _,
            state: _,
            decoded: _,
        } = self;
    }
}

impl Session {
    /// A session that has read nothing.
    pub fn new(alloc: Global) -> Session
        ensures stream { HasSeen (session_view result).framed [] [] }
        ensures ready { (session_view result).framed.ready ≡ [] }
        ensures fault { (session_view result).framed.fault ≡ None }
        ensures state { (session_view result).state ≡ at_first }
    {
        Session {
            framer: Framer::new(alloc),
            state: State::at_first(),
            decoded: 0,
        }
    }

    /// Takes the next piece of the stream. Want of memory is the only error, and changes nothing.
    pub fn feed(&mut self, piece: &[u8]) -> Result<(), AllocError>
        ensures stream { (stream : List ℕ) (handed : List MessageValue) → HasSeen (session_view self.old).framed
            stream handed
            → OnOk result (HasSeen (session_view self.new).framed (stream ++ piece.now) handed) }
        ensures state { (session_view self.new).state ≡ (session_view self.old).state }
        ensures err { OnErr result (session_view self.new ≡ session_view self.old) }
    {
        self.decoded = self.decoded_with(piece.len());
        match self.framer.feed(piece) {
            Ok(()) => Ok(()),
            Err(FrameFault::NoMemory) => Err(AllocError),
            Err(FrameFault::Refused(_) | FrameFault::Failed) => Ok(()),
        }
    }

    /// Answers the next message, if a whole one is there; what is no message is answered by the Notice of Disconnection
    /// (RFC 4511 4.4.1).
    pub fn answer<D: Directory>(
        &mut self,
        alloc: Global,
        config: &Config,
        directory: &mut D,
    ) -> Result<Option<Answered>, AnswerError>
        ensures { Answers D.allows (config_view config.now) (session_view self.old) (session_view self.new)
            directory.old directory.new result }
    {
        match self.framer.next() {
            Some(message) => {
                let answered = take(alloc, config, &mut self.state, directory, message)?;
                Ok(Some(answered))
            }
            None => self.answer_no_message(alloc),
        }
    }

    /// What stands next: only an update may have to wait for others, and only the manager's is one.
    pub fn due(&self) -> Due
        ensures { result ≡ due_of (session_view self.now).state (session_view self.now).framed.ready
            (session_view self.now).framed.fault }
    {
        match self.framer.peek() {
            Some(message) => {
                if may_update(&self.state, message) {
                    Due::Update
                } else {
                    Due::Other
                }
            }
            None => self.due_at_last(),
        }
    }

    /// What stands behind the last whole message.
    fn due_at_last(&self) -> Due
        ensures { result ≡ due_at_last (session_view self.now).framed.fault }
    {
        if self.framer.is_stopped() {
            Due::Other
        } else {
            Due::Nothing
        }
    }

    /// The name in the bind that stands next, which is empty for nobody; none, where no bind stands next.
    pub fn bind_next(&self) -> Option<&str>
        ensures { option_map (λ name. name.now) result ≡ bind_of (session_view self.now).framed.ready }
    {
        match self.framer.peek() {
            Some(message) => bind_name(message),
            None => None,
        }
    }

    /// Whether a search stands next.
    pub fn is_search_next(&self) -> bool
        ensures { result ≡ is_search_of (session_view self.now).framed.ready }
    {
        match self.framer.peek() {
            Some(message) => is_search(message),
            None => false,
        }
    }

    /// How many octets of memory the messages that wait take, at most.
    fn decoded(&self) -> usize
        ensures { (session_view self.now).framed.ready ≡ [] → result ≡ 0 }
    {
        match self.framer.peek() {
            Some(_) => self.decoded,
            None => 0,
        }
    }

    /// How many octets of memory messages take, at most, that become whole by so many further octets.
    pub fn weight_of(&self, count: usize) -> usize {
        self.framer.weight_of(count)
    }

    /// The same with the messages that wait already.
    fn decoded_with(&self, count: usize) -> usize {
        self.decoded().saturating_add(self.weight_of(count))
    }

    /// How many octets of memory are kept for octets and for messages that wait.
    pub fn held(&self) -> usize
        ensures none { (session_view self.now).framed.ready ≡ [] → room_of self.now.framer ≡ 0 → result ≡ 0 }
        ensures octets { min (length (session_view self.now).framed.rest) 18446744073709551615 ≤ result }
    {
        self.decoded().saturating_add(self.framer.room())
    }

    /// Whether it is bound as the manager.
    pub fn is_bound(&self) -> bool
        ensures { IsFalse result ↔ ((session_view self.now).state.identity ≡ at_first.identity) }
    {
        self.state.identity != State::at_first().identity
    }

    /// Gives back the memory that is kept for octets and messages, where none are held.
    pub fn rest(&mut self)
        ensures kept { session_view self.new ≡ session_view self.old }
        ensures none { (session_view self.old).framed.rest ≡ [] → room_of self.new.framer ≡ 0 }
    {
        self.framer.rest();
    }

    /// The notice, where what stands next is no message.
    fn answer_no_message(&self, alloc: Global) -> Result<Option<Answered>, AnswerError>
        ensures { IsNoMessage (session_view self.now).framed.fault result }
    {
        if self.framer.is_stopped() {
            let notice = disconnect(alloc)?;
            Ok(Some(notice))
        } else {
            Ok(None)
        }
    }

    /// How the session ends where its stream ends, once all its messages are answered: between two messages, or inside
    /// one.
    pub fn end_of_input(&self) -> SessionEnd
        ensures { IsAtLast (session_view self.now) result }
    {
        if self.framer.holds_part() {
            SessionEnd::Truncated
        } else {
            SessionEnd::EndOfInput
        }
    }
}
