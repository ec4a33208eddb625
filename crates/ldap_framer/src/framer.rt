//! A framer: takes a stream in pieces and gives its messages.

ghost use Rattle.std.specs.Prelude.{◌≡◌, ◌⊎◌, ◌+◌, ◌≤◌, min, length, ℕ, List, [], ◌∷◌, ◌++◌, OnOk, IfErr, IfSome, IfNone, None, is_some, slice_get};
ghost use Rattle.std.specs.Option.{option_map};
ghost use Rattle.std.specs.Bool.{OnTrue, OnFalse};
ghost use Rattle.ldap_msg.specs.Messages.{MessageValue};
ghost use Rattle.ldap_msg.specs.View.{view};
ghost use Rattle.ldap_framer.specs.Framed.{HasSeen, Takes, IsFeedFault};
ghost use Rattle.ldap_framer.specs.View.{framed, room_of};
ghost use Rattle.ldap_framer.specs.Weighing.{StatesMore};
ghost use Rattle.ldap_framer.specs.declared.fault.FrameFault.{FrameFault};

use crate::cutting::cut;
use crate::fault::FrameFault;
use crate::weighing::weight;
use bytes::BytesMut;
use ldap_msg::{Message, MsgFault};
use std::alloc::Global;
use std::collections::VecDeque;

/// How many octets of room a buffer may keep that it doesn't use: two reads of a socket; and where the stream pauses,
/// as many as nobody counts.
const ROOM: usize = 16_384;

const SPARE: usize = 4_096;

/// Gives back the room of a buffer, where that is at least this and three times what the buffer holds: what it holds is
/// copied to a buffer of its own size. Where there is no memory for that, the room stays. The copy costs less than the
/// octets that have gone.
fn give_back(alloc: Global, buffer: &mut BytesMut, room: usize)
    ensures { buffer.new.items ≡ buffer.old.items }
{
    let most = buffer.len().saturating_mul(3).max(room);
    if !buffer.try_reclaim(most) {
        return;
    }
    match BytesMut::copy_from_slice(alloc, buffer.as_slice()) {
        Ok(own) => *buffer = own,
        Err(_) => {}
    }
}

/// Cuts a stream into messages. A piece costs what its octets and its whole messages cost: what is left of a message is
/// kept where it lies, and looked at again in its first six octets alone. Room grows by what came, never by what a
/// header says will come; behind a large message it is given back.
pub struct Framer {
    alloc: Global,
    buffer: BytesMut,
    ready: VecDeque<Message>,
    fault: Option<MsgFault>,
}

// Not derived: see "What the gate takes" in docs/ARCHITECTURE.md.
impl Drop for Framer {
    fn drop(self) {
        let Framer {
            alloc: _,
            buffer: _,
            ready: _,
            fault: _,
        } = self;
    }
}

impl Framer {
    /// A framer that has seen nothing.
    pub fn new(alloc: Global) -> Framer
        ensures ready { (framed result).ready ≡ [] }
        ensures rest { (framed result).rest ≡ [] }
        ensures fault { (framed result).fault ≡ None }
        ensures stream { HasSeen (framed result) [] [] }
    {
        Framer {
            alloc,
            buffer: BytesMut::new(alloc),
            ready: VecDeque::new(alloc),
            fault: None,
        }
    }

    /// Takes the next piece of the stream. E7 to E10 where the stream stops, after which each call is
    /// Failed; the messages before are still handed out. Want of memory comes only before that, and changes nothing.
    pub fn feed(&mut self, piece: &[u8]) -> Result<(), FrameFault>
        // The messages of the piece behind what was left join those that wait.
        ensures ok { OnOk result (Takes (framed self.old) piece.now (framed self.new)) }
        ensures awaits { OnOk result ((framed self.new).fault ≡ None) }
        // Which fault it is, and what it leaves.
        ensures fault { IfErr result (λ e. IsFeedFault e (framed self.old) piece.now (framed self.new)) }
        // However the stream was cut: with those that wait, the messages handed out are those of the whole stream so
        // far.
        ensures stream { (stream : List ℕ) (handed : List MessageValue)
            → HasSeen (framed self.old) stream handed
            → OnOk result (HasSeen (framed self.new) (stream ++ piece.now) handed) }
        ensures stopped { (stream : List ℕ) (handed : List MessageValue)
            → HasSeen (framed self.old) stream handed → IfErr result (λ e. (e ≡ FrameFault.NoMemory)
            ⊎ HasSeen (framed self.new) (stream ++ piece.now) handed) }
    {
        self.take(piece)
    }

    /// The same, by what the piece makes of what was left.
    fn take(&mut self, piece: &[u8]) -> Result<(), FrameFault>
        ensures ok { OnOk result (Takes (framed self.old) piece.now (framed self.new)) }
        ensures awaits { OnOk result ((framed self.new).fault ≡ None) }
        ensures fault { IfErr result (λ e. IsFeedFault e (framed self.old) piece.now (framed self.new)) }
    {
        if self.fault.is_some() {
            return Err(FrameFault::Failed);
        }
        let before = self.buffer.len();
        self.buffer.extend_from_slice(piece)?;
        match cut(self.alloc, self.buffer.as_slice()) {
            Ok(mut cut) => {
                if self.ready.append(&mut cut.messages).is_err() {
                    self.buffer.truncate(before);
                    return Err(FrameFault::NoMemory);
                }
                match cut.fault {
                    None => {
                        self.buffer.advance(cut.taken);
                        if cut.taken >= ROOM {
                            give_back(self.alloc, &mut self.buffer, ROOM);
                        }
                        Ok(())
                    }
                    Some(fault) => {
                        self.fault = Some(fault);
                        Err(FrameFault::Refused(fault))
                    }
                }
            }
            Err(_) => {
                self.buffer.truncate(before);
                Err(FrameFault::NoMemory)
            }
        }
    }

    /// The next message, taken out. It takes no memory.
    pub fn next(&mut self) -> Option<Message>
        ensures some { IfSome result (λ m. (framed self.old).ready ≡ view m ∷ (framed self.new).ready) }
        ensures none { IfNone result (((framed self.old).ready ≡ []) × ((framed self.new).ready ≡ [])) }
        ensures rest { (framed self.new).rest ≡ (framed self.old).rest }
        ensures fault { (framed self.new).fault ≡ (framed self.old).fault }
        ensures stream { (stream : List ℕ) (handed : List MessageValue)
            → HasSeen (framed self.old) stream handed
            → IfSome result (λ m. HasSeen (framed self.new) stream (handed ++ view m ∷ [])) }
    {
        self.ready.pop_front()
    }

    /// Gives back memory that was kept for octets and for messages: all of it where none are held, and for octets what
    /// is much more than those that are held need. A stream that pauses between two messages keeps nothing then.
    pub fn rest(&mut self)
        ensures kept { framed self.new ≡ framed self.old }
        ensures none { (framed self.old).rest ≡ [] → room_of self.new ≡ 0 }
    {
        if self.buffer.is_empty() {
            self.buffer = BytesMut::new(self.alloc);
        } else {
            give_back(self.alloc, &mut self.buffer, SPARE);
        }
        if self.ready.is_empty() {
            self.ready = VecDeque::new(self.alloc);
        }
    }

    /// The next message, left where it waits.
    pub fn peek(&self) -> Option<&Message>
        ensures { option_map (λ m. view m.now) result ≡ slice_get (framed self.now).ready 0 }
    {
        self.ready.front()
    }

    /// Whether a fault has stopped the stream. The messages before it are still handed out.
    pub fn is_stopped(&self) -> bool
        ensures { result ≡ is_some (framed self.now).fault }
    {
        self.fault.is_some()
    }

    /// How many octets of memory are kept for octets that begin a message.
    pub fn room(&self) -> usize
        ensures room { result ≡ room_of self.now }
        ensures holds { length (framed self.now).rest ≤ result }
    {
        self.buffer.capacity()
    }

    /// How many octets of memory those messages take, at most, that become whole by so many further octets: at least
    /// the octets of them all; 0, where the message that is begun states more.
    pub fn weight_of(&self, count: usize) -> usize
        ensures begun { StatesMore (framed self.now).rest count → result ≡ 0 }
        ensures whole { (StatesMore (framed self.now).rest count → ⊥) → min (length (framed self.now).rest + count)
            18446744073709551615 ≤ result }
    {
        weight(self.buffer.as_slice(), count)
    }

    /// Whether octets are left that begin a message and are not a whole one.
    pub fn holds_part(&self) -> bool
        ensures yes { OnTrue result (((framed self.now).fault ≡ None) × ((framed self.now).rest ≡ [] → ⊥)) }
        ensures no { OnFalse result (((framed self.now).fault ≡ None) → (framed self.now).rest ≡ []) }
    {
        self.fault.is_none() && !self.buffer.is_empty()
    }
}
