//! A session with its socket. Octets come from the socket into its conversation, and go back.
ghost use Rattle.std.specs.Prelude.{◌≡◌, ◌⊎◌, ◌≤◌, ◌↔◌, ◌+◌, [], length, min, cond, true, false, IsTrue, IsFalse, IsSome, None, IfOk, OnOk, OnErr};
ghost use Rattle.std.specs.Option.{option_map};
ghost use Rattle.ldap_session.specs.Conversing.{IsFresh, Continues};
ghost use Rattle.ldap_session.specs.View.{conversation_view};
ghost use Rattle.ldap_session.specs.Waiting.{bind_next, is_search_next};
ghost use Rattle.ldap_session.specs.session_handler.Session.{at_first};
ghost use Rattle.ldap_session.specs.session_handler.View.{config_view};
ghost use Rattle.session_turns.specs.Owing.{nothing_owed, charged, class_of};
ghost use Rattle.session_turns.specs.declared.spot.Queue.{Queue};
ghost use Rattle.session_table.specs.declared.place_state.Turn.{Turn};
ghost use Rattle.session_table.specs.Attending.{talk, due_next, IsSame, HasSent, Becomes};
ghost use Rattle.session_table.specs.Waiting.{HasHeard, began_while, began_in, HasPaused, IsLate, HasToWrite, IsSlow, HasCause, WaitsFor, HasWaited, Counts, IsSilent, IsUpdateNext, IsDelayed, HasNoted, HasGivenUp};
ghost use Rattle.session_table.specs.private.Slots.{SendsTo};

use crate::patience::stretch;
use crate::place_state::Turn;
use crate::updaters::is_past;
use ldap_session::{Config, Conversation, Directory, Due, SessionEnd, Step};
use session_turns::{Budget, Class, Debt, Holder, Queue};
use std::alloc::Global;
use std::io;
use std::io::{ErrorKind, Read, Write};
use std::net::{Shutdown, TcpStream};
use std::os::fd::{AsRawFd, RawFd};
use std::time::{Duration, Instant};

/// How long a read or a write of a socket waits, in milliseconds: for so long a thread stays with a session whose next
/// message may come at once.
const LINGER: u64 = 5;

/// From how many octets on, beyond what is posted, room is asked for before octets are kept and messages are decoded.
const LARGE: u64 = 65_536;

/// After how many refused binds of one connection a further one waits.
const REFUSALS: u32 = 3;

/// A session with its socket.
#[derive(Drop)]
pub struct PooledSession {
    pub(crate) place: usize,
    pub(crate) number: u64,
    conversation: Conversation,
    stream: TcpStream,
    /// Whether its messages come one soon after the other.
    pub is_quick: bool,
    /// Whether its socket doesn't wait, since the client lets octets wait.
    is_stuck: bool,
    /// What it owes of the time of seats.
    debt: Debt,
    /// Since when it waits.
    pub(crate) since: Instant,
    /// How long its client has let the octets wait that are unsent, and how many it has taken meanwhile.
    waited: Duration,
    taken: u64,
    /// How many octets were read of its client and written to it, that nobody was told of yet.
    read: u64,
    written: u64,
    /// Since when it waits inside of the message that stands next.
    began: Option<Instant>,
    /// How many octets of memory are posted of it, as what it holds.
    posted: u64,
    /// How many of its binds were refused, and whether the one that stands next has waited for that.
    refusals: u32,
    has_waited: bool,
    /// Since when it waits in the queue of updates, and since when its client sends no more, where that was told there.
    pub(crate) asked: Instant,
    pub(crate) closed: Option<Instant>,
    /// How it ended where it waits for its turn.
    over: Option<SessionEnd>,
    /// Whether the update that stands next has waited for a thread for too long.
    is_refused: bool,
}

/// What is told to a session that waits for its turn.
#[derive(Clone, Copy, Debug)]
pub enum Notice {
    /// It is over.
    Over(SessionEnd),
    /// Its client sends no more, since then.
    SendsNoMore(Instant),
}

/// How many octets have passed between a session and its client.
#[derive(Clone, Copy, Debug, PartialEq, Eq)]
pub struct Traffic {
    /// What was read of the client.
    pub read: u64,
    /// What was written to it.
    pub written: u64,
}

/// What was dropped of what the client of a session has sent that is over.
#[derive(Clone, Copy, Debug, PartialEq, Eq)]
pub enum Dropped {
    /// As much as is dropped at once: there may be more.
    Much,
    /// All that had come.
    All,
    /// The client sends no more.
    Over,
}

/// Who makes room for what sessions hold.
pub trait MakesRoom {
    /// Whether there is room for so many octets more of a session that holds this.
    fn makes_room(&self, own: Holder, more: u64) -> bool;
}

/// What a read of a socket gave.
#[derive(Clone, Copy, Debug, PartialEq, Eq)]
pub enum ReadOutcome {
    Octets,
    Nothing,
    Ends(SessionEnd),
}

/// What becomes of a session.
#[derive(Clone, Copy, Debug, PartialEq, Eq)]
pub enum Then {
    /// All its messages are answered, and the client has all answers.
    Listens,
    /// A whole message stands next that may be an update.
    Updates,
    /// A whole message stands next.
    Queues,
    /// A bind stands next, which waits since others were refused.
    Delays,
    /// The client is to take an answer.
    Waits,
    Ends(SessionEnd),
}

/// Whether a call came to nothing only because its time was over.
fn is_pause(kind: ErrorKind) -> bool {
    kind == ErrorKind::WouldBlock || kind == ErrorKind::TimedOut
}

/// Whether there is room for what a conversation keeps once it has heard so many octets that were read, with the
/// messages that become whole by them. It is asked for where that is much more than is posted.
fn has_room<M: MakesRoom>(
    conversation: &Conversation,
    count: usize,
    posted: &mut u64,
    room: &M,
) -> bool {
    let weight = conversation.weight_of(count) as u64;
    let needed = (conversation.held() as u64).saturating_add(weight);
    let more = needed.saturating_sub(*posted);
    if more < LARGE {
        return true;
    }
    let own = Holder {
        octets: needed,
        is_bound: conversation.is_bound(),
    };
    if !room.makes_room(own, more) {
        return false;
    }
    *posted = needed;
    true
}

/// Reads once. What is heard is put into the conversation, where there is room.
fn hear_from<R: Read, M: MakesRoom>(
    reader: &mut R,
    conversation: &mut Conversation,
    buffer: &mut [u8],
    posted: &mut u64,
    read: &mut u64,
    room: &M,
) -> ReadOutcome
    ensures { HasHeard (R.remaining reader.old) (R.remaining reader.new)
        (conversation_view conversation.old) buffer.new (conversation_view conversation.new) result }
{
    match reader.read(buffer) {
        Ok(0) => ReadOutcome::Ends(conversation.end_of_input()),
        Ok(count) => {
            *read = read.saturating_add(count as u64);
            if !has_room(conversation, count, posted, room) {
                return ReadOutcome::Ends(SessionEnd::NoMemory);
            }
            match conversation.hear(&buffer[..count]) {
                Ok(()) => ReadOutcome::Octets,
                Err(_) => ReadOutcome::Ends(SessionEnd::NoMemory),
            }
        }
        Err(error) => {
            if is_pause(error.kind()) {
                ReadOutcome::Nothing
            } else {
                ReadOutcome::Ends(SessionEnd::ReadFailed)
            }
        }
    }
}

/// Reads once, and drops what is read.
fn drop_from<R: Read>(reader: &mut R, buffer: &mut [u8]) -> Dropped {
    match reader.read(buffer) {
        Ok(0) => Dropped::Over,
        Ok(count) => {
            if count < buffer.len() {
                Dropped::All
            } else {
                Dropped::Much
            }
        }
        Err(error) => {
            if is_pause(error.kind()) {
                Dropped::All
            } else {
                Dropped::Over
            }
        }
    }
}

/// Writes once what is unsent, and tells how much of it the writer took: none, where its time was over.
fn send_to<W: Write>(writer: &mut W, conversation: &mut Conversation) -> io::Result<usize>
    ensures ok { IfOk result (SendsTo (W.contents writer.old) (W.contents writer.new)
        (conversation_view conversation.old) (conversation_view conversation.new)) }
    ensures err { OnErr result (conversation_view conversation.new ≡ conversation_view conversation.old) }
{
    match writer.write(conversation.unsent()) {
        Ok(0) => Err(io::Error::from(ErrorKind::WriteZero)),
        Ok(count) => {
            conversation.sent(count);
            Ok(count)
        }
        Err(error) => {
            if is_pause(error.kind()) {
                Ok(0)
            } else {
                Err(error)
            }
        }
    }
}

/// Since when a session waits inside of one message, where this stands next.
fn began_while(due: Due, began: Option<Instant>) -> Option<Instant>
    ensures { result ≡ began_while due began }
{
    match due {
        Due::Nothing => began,
        Due::Update | Due::Other => None,
    }
}

/// The same, where it waits in a queue from now on.
fn began_in(queue: Queue, began: Option<Instant>, now: Instant) -> Option<Instant>
    ensures { result ≡ began_in queue began now }
{
    match queue {
        Queue::Inside => Some(began.unwrap_or(now)),
        Queue::Silent | Queue::Unsent | Queue::Leaving | Queue::Delayed => None,
    }
}

impl PooledSession {
    /// A session that begins, on a socket that was taken.
    pub fn new(
        alloc: Global,
        place: usize,
        number: u64,
        stream: TcpStream,
        since: Instant,
    ) -> io::Result<PooledSession>
        ensures place { IfOk result (λ g. g.place ≡ place) }
        ensures number { IfOk result (λ g. g.number ≡ number) }
        ensures fresh { IfOk result (λ g. IsFresh (talk g)) }
        ensures owes_nothing { IfOk result (λ g. g.debt ≡ nothing_owed) }
    {
        stream.set_nodelay(true)?;
        stream.set_read_timeout(Some(Duration::from_millis(LINGER)))?;
        stream.set_write_timeout(Some(Duration::from_millis(LINGER)))?;
        Ok(PooledSession {
            place,
            number,
            conversation: Conversation::new(alloc),
            stream,
            is_quick: false,
            is_stuck: false,
            debt: Debt::new(),
            since,
            waited: Duration::from_secs(0),
            taken: 0,
            read: 0,
            written: 0,
            began: None,
            posted: 0,
            refusals: 0,
            has_waited: false,
            asked: since,
            closed: None,
            over: None,
            is_refused: false,
        })
    }

    /// Its place in the table.
    pub fn place(&self) -> usize
        ensures { result ≡ self.now.place }
    {
        self.place
    }

    /// Its number, which no other session has.
    pub fn number(&self) -> u64
        ensures { result ≡ self.now.number }
    {
        self.number
    }

    /// What the system calls its socket.
    pub fn fd(&self) -> RawFd {
        self.stream.as_raw_fd()
    }

    /// Since when it waits, or has waited last.
    pub fn since(&self) -> Instant
        ensures { result ≡ self.now.since }
    {
        self.since
    }

    /// How it ended where it waits for its turn.
    pub fn over(&self) -> Option<SessionEnd>
        ensures { result ≡ self.now.over }
    {
        self.over
    }

    /// What stands next in its conversation.
    pub fn due(&self) -> Due
        ensures { result ≡ due_next (talk self.now) }
    {
        self.conversation.due()
    }

    /// The name in the bind that stands next, which is empty for nobody; none, where no bind stands next.
    pub fn bind_next(&self) -> Option<&str>
        ensures { option_map (λ name. name.now) result ≡ bind_next (talk self.now).end (talk self.now).session.framed }
    {
        self.conversation.bind_next()
    }

    /// Whether a search stands next.
    pub fn is_search_next(&self) -> bool
        ensures { result ≡ is_search_next (talk self.now).end (talk self.now).session.framed }
    {
        self.conversation.is_search_next()
    }

    /// The octets that are said and not sent.
    pub fn unsent(&self) -> &[u8]
        ensures { result.now ≡ (talk self.now).unsent }
    {
        self.conversation.unsent()
    }

    /// Answers the next message by what this directory says.
    pub fn answer<D: Directory>(
        &mut self,
        alloc: Global,
        config: &Config,
        directory: &mut D,
    ) -> Step
        ensures same { IsSame self.old self.new }
        ensures answers { Continues D.allows (config_view config.now) (talk self.old) (talk self.new)
            directory.old directory.new result }
    {
        self.conversation.answer(alloc, config, directory)
    }

    /// A seat has spent so many microseconds on its messages until now.
    pub fn charge(&mut self, used: u64, now: u64)
        ensures place { self.new.place ≡ self.old.place }
        ensures number { self.new.number ≡ self.old.number }
        ensures kept { talk self.new ≡ talk self.old }
        ensures charged { self.new.debt ≡ charged self.old.debt used now }
    {
        self.debt.charge(used, now);
    }

    /// The class in which it waits for a seat, at a moment.
    pub fn class(&self, now: u64) -> Class
        ensures { result ≡ class_of self.now.debt now }
    {
        self.debt.class(now)
    }

    /// Reads once. What is heard is put into the conversation. Where that makes a message whole, the next one has not
    /// begun.
    pub fn hear<M: MakesRoom>(&mut self, buffer: &mut [u8], room: &M) -> ReadOutcome
        ensures same { IsSame self.old self.new }
        ensures heard { HasHeard None None (talk self.old) buffer.new (talk self.new) result }
        ensures began { self.new.began ≡ began_while (due_next (talk self.new)) self.old.began }
    {
        let heard = hear_from(
            &mut self.stream,
            &mut self.conversation,
            buffer,
            &mut self.posted,
            &mut self.read,
            room,
        );
        self.began = began_while(self.conversation.due(), self.began);
        heard
    }

    /// It waits in this queue from now on. Inside of a message that counts from when it first did so.
    pub fn pause(&mut self, queue: Queue, now: Instant)
        ensures { HasPaused self.old queue now self.new }
    {
        self.since = now;
        self.began = began_in(queue, self.began, now);
        self.conversation.rest();
    }

    /// Whether it has waited inside of one message for so long, however often octets of it have come.
    pub fn is_late(&self, limit: Duration, now: Instant) -> bool
        ensures { IsTrue result ↔ IsLate self.now limit now }
    {
        match self.began {
            Some(began) => is_past(began, limit, now),
            None => false,
        }
    }

    /// Whether all its messages are answered, and the client has all answers.
    pub fn is_silent(&self) -> bool
        ensures { IsTrue result ↔ IsSilent self.now }
    {
        !self.is_stuck && self.conversation.due() == Due::Nothing
    }

    /// Whether its next message may be an update.
    pub fn is_update_next(&self) -> bool
        ensures { IsTrue result ↔ IsUpdateNext self.now }
    {
        !self.is_stuck && self.conversation.due() == Due::Update
    }

    /// For whom its next message is.
    pub fn turn(&self) -> Turn
        ensures { (result ≡ Turn.Update) ↔ IsUpdateNext self.now }
    {
        if self.is_update_next() {
            Turn::Update
        } else {
            Turn::Seat
        }
    }

    /// It waits for its client no more, but for its turn. Where it waited for its client to take an answer, that time
    /// counts.
    pub fn rouse(&mut self, now: Instant)
        ensures waited { HasWaited self.old self.new }
        ensures counted { Counts self.old now self.new }
    {
        if self.is_stuck {
            let more = now.saturating_duration_since(self.since);
            self.waited = self.waited.saturating_add(more);
        }
        self.asked = now;
        self.closed = None;
    }

    /// It is over: its client is told that nothing more comes, its socket doesn't wait, and what its conversation kept
    /// is given back.
    pub fn retire(&mut self, alloc: Global, now: Instant) -> io::Result<()>
        ensures same { IsSame self.old self.new }
    {
        self.conversation = Conversation::new(alloc);
        self.since = now;
        self.stream.shutdown(Shutdown::Write)?;
        self.stream.set_nonblocking(true)
    }

    /// Whether its client has sent what was not read. Its socket doesn't wait.
    pub fn has_unread(&self) -> bool {
        let mut buffer = [0u8; 1];
        match self.stream.peek(&mut buffer) {
            Ok(count) => count > 0,
            Err(_) => false,
        }
    }

    /// Reads once and drops what its client has sent. Its socket doesn't wait.
    pub fn drop_input(&self, buffer: &mut [u8]) -> Dropped {
        let mut stream = &self.stream;
        drop_from(&mut stream, buffer)
    }

    /// It waits on for its client to take an answer; whether that has lasted for too long by now.
    pub fn wait_on(&mut self, limit: Duration, now: Instant) -> bool
        ensures waited { HasWaited self.old self.new }
        ensures counted { Counts self.old now self.new }
        ensures since { self.new.since ≡ now }
        ensures slow { IsTrue result ↔ IsSlow self.new limit }
    {
        self.rouse(now);
        self.since = now;
        self.is_slow(limit)
    }

    /// Writes once what is unsent, as far as the client takes it.
    fn send(&mut self) -> io::Result<()>
        ensures same { IsSame self.old self.new }
        ensures sent { HasSent (talk self.old) (talk self.new) }
        ensures err { OnErr result (HasToWrite self.old) }
        ensures stuck { self.new.is_stuck ≡ self.old.is_stuck }
    {
        if self.conversation.unsent().is_empty() {
            return Ok(());
        }
        let count = send_to(&mut self.stream, &mut self.conversation)?;
        self.taken = self.taken.saturating_add(count as u64);
        self.written = self.written.saturating_add(count as u64);
        Ok(())
    }

    /// While octets wait for the client, its socket doesn't wait. Once it has all of them, the next ones have all the
    /// time again.
    fn settle(&mut self) -> io::Result<()>
        ensures same { IsSame self.old self.new }
        ensures kept { talk self.new ≡ talk self.old }
        ensures stuck { OnOk result ((self.new.is_stuck ≡ true) ↔ ((talk self.new).unsent ≡ [] → ⊥)) }
        ensures err { OnErr result (HasToWrite self.old) }
    {
        let is_stuck = !self.conversation.unsent().is_empty();
        if is_stuck != self.is_stuck {
            self.stream.set_nonblocking(is_stuck)?;
            self.is_stuck = is_stuck;
        }
        if !is_stuck {
            self.waited = Duration::from_secs(0);
            self.taken = 0;
        }
        Ok(())
    }

    /// Whether the client has let octets wait for so long, and as long again for each MiB that it has taken of them.
    fn is_slow(&self, limit: Duration) -> bool
        ensures { IsTrue result ↔ IsSlow self.now limit }
    {
        self.waited.as_nanos() >= limit.saturating_mul(stretch(self.taken)).as_nanos()
    }

    /// Writes what is unsent as far as the client takes it, and has its socket wait, or not.
    fn put(&mut self) -> io::Result<()>
        ensures same { IsSame self.old self.new }
        ensures sent { HasSent (talk self.old) (talk self.new) }
        ensures stuck { OnOk result ((self.new.is_stuck ≡ true) ↔ ((talk self.new).unsent ≡ [] → ⊥)) }
        ensures err { OnErr result (HasToWrite self.old) }
    {
        self.send()?;
        self.settle()
    }

    /// Writes what is unsent, and says what becomes of the session.
    pub fn say(&mut self, limit: Duration) -> Then
        ensures same { IsSame self.old self.new }
        ensures sent { HasSent (talk self.old) (talk self.new) }
        ensures becomes { Becomes (talk self.new) result }
        ensures cause { HasCause self.old self.new limit result }
    {
        match self.put() {
            Ok(()) => {}
            Err(_) => return Then::Ends(SessionEnd::WriteFailed),
        }
        if self.is_stuck {
            return match self.is_slow(limit) {
                true => Then::Ends(SessionEnd::WriteFailed),
                false => Then::Waits,
            };
        }
        if let Some(end) = self.conversation.end() {
            return Then::Ends(end);
        }
        match self.conversation.due() {
            Due::Nothing => Then::Listens,
            Due::Update => Then::Updates,
            Due::Other => {
                if self.is_delayed() {
                    Then::Delays
                } else {
                    Then::Queues
                }
            }
        }
    }

    /// What has passed between it and its client since this was asked last.
    pub fn take_traffic(&mut self) -> Traffic
        ensures same { IsSame self.old self.new }
        ensures kept { talk self.new ≡ talk self.old }
        ensures read { result.read ≡ self.old.read }
        ensures written { result.written ≡ self.old.written }
        ensures told { (self.new.read ≡ 0) × (self.new.written ≡ 0) }
    {
        let traffic = Traffic {
            read: self.read,
            written: self.written,
        };
        self.read = 0;
        self.written = 0;
        traffic
    }

    /// Whether a bind stands next that is to wait: several were refused, and it hasn't waited yet.
    pub fn is_delayed(&self) -> bool
        ensures { IsTrue result ↔ IsDelayed self.now }
    {
        self.refusals >= REFUSALS && !self.has_waited && self.conversation.bind_next().is_some()
    }

    /// The bind that stands next has waited.
    pub fn allow_bind(&mut self)
        ensures same { IsSame self.old self.new }
        ensures kept { talk self.new ≡ talk self.old }
        ensures waited { IsDelayed self.new → ⊥ }
    {
        self.has_waited = true;
    }

    /// A bind was answered: the next one waits by itself.
    pub fn note_bind(&mut self, is_refused: bool)
        ensures same { IsSame self.old self.new }
        ensures kept { talk self.new ≡ talk self.old }
        ensures counted { self.new.refusals ≡ cond is_refused (min (self.old.refusals + 1) 4294967295)
            self.old.refusals }
        ensures again { self.new.has_waited ≡ false }
    {
        self.has_waited = false;
        if is_refused {
            self.refusals = self.refusals.saturating_add(1);
        }
    }

    /// It waits in the queue of updates from now on.
    pub fn line_up(&mut self, now: Instant)
        ensures same { IsSame self.old self.new }
        ensures kept { talk self.new ≡ talk self.old }
        ensures asked { self.new.asked ≡ now }
        ensures open { self.new.closed ≡ None }
    {
        self.asked = now;
        self.closed = None;
    }

    /// Its update has waited for a thread for too long: a seat answers it.
    pub fn give_up_update(&mut self)
        ensures same { IsSame self.old self.new }
        ensures kept { talk self.new ≡ talk self.old }
        ensures refused { self.new.is_refused ≡ true }
    {
        self.is_refused = true;
    }

    /// Whether its update has waited for too long, and stands next.
    pub fn has_given_up(&self) -> bool
        ensures { IsTrue result ↔ HasGivenUp self.now }
    {
        self.is_refused && self.conversation.due() == Due::Update
    }

    /// Its update is answered.
    pub fn take_up(&mut self)
        ensures same { IsSame self.old self.new }
        ensures kept { talk self.new ≡ talk self.old }
        ensures answered { HasGivenUp self.new → ⊥ }
    {
        self.is_refused = false;
    }

    /// How it ended before the turn of its update: it is over, or its client has sent no more for so long.
    pub fn end_before(&self, limit: Duration, now: Option<Instant>) -> Option<SessionEnd>
        ensures over { IsSome self.now.over → result ≡ self.now.over }
        ensures open { self.now.over ≡ None → self.now.closed ≡ None → result ≡ None }
    {
        if self.over.is_some() {
            return self.over;
        }
        match (self.closed, now) {
            (Some(since), Some(now)) if is_past(since, limit, now) => Some(SessionEnd::EndOfInput),
            _ => None,
        }
    }

    /// What it holds of the memory that clients may take together.
    pub fn holder(&self) -> Holder
        ensures octets { result.octets ≡ self.now.posted }
        ensures bound { IsFalse result.is_bound ↔ ((talk self.now).session.state.identity ≡ at_first.identity) }
    {
        Holder {
            octets: self.posted,
            is_bound: self.conversation.is_bound(),
        }
    }

    /// What it holds of the memory that clients may take together is posted.
    pub fn post(&mut self, budget: &Budget)
        ensures same { IsSame self.old self.new }
        ensures kept { talk self.new ≡ talk self.old }
        ensures heard { min (length (talk self.old).session.framed.rest) 18446744073709551615 ≤ self.new.posted }
        ensures unsent { length (talk self.old).unsent ≤ self.new.posted }
    {
        let held = self.conversation.held() as u64;
        budget.post(self.posted, held);
        self.posted = held;
    }

    /// It ends, and holds nothing.
    pub fn give_back(&mut self, budget: &Budget)
        ensures same { IsSame self.old self.new }
        ensures kept { talk self.new ≡ talk self.old }
        ensures nothing { self.new.posted ≡ 0 }
    {
        budget.post(self.posted, 0);
        self.posted = 0;
    }

    /// It is told this while it waits for its turn. Where it is over, what its conversation kept is given back, and its
    /// client is told that nothing more comes. How many octets are posted of it no more.
    pub fn take_note(&mut self, alloc: Global, notice: Notice) -> u64
        ensures same { IsSame self.old self.new }
        ensures noted { HasNoted self.old notice self.new }
        ensures given { result + self.new.posted ≡ self.old.posted }
    {
        match notice {
            Notice::Over(end) => {
                let _ = self.stream.shutdown(Shutdown::Both);
                self.conversation = Conversation::new(alloc);
                self.over = Some(self.over.unwrap_or(end));
                let posted = self.posted;
                self.posted = 0;
                posted
            }
            Notice::SendsNoMore(now) => {
                if self.closed.is_none() {
                    self.closed = Some(now);
                }
                0
            }
        }
    }

    /// What it waits for, where all its messages are answered.
    pub fn queue(&self) -> Queue
        ensures waits { WaitsFor (talk self.now).session result }
        ensures either { (result ≡ Queue.Silent) ⊎ (result ≡ Queue.Inside) }
    {
        match self.conversation.end_of_input() {
            SessionEnd::Truncated => Queue::Inside,
            SessionEnd::Unbound
            | SessionEnd::EndOfInput
            | SessionEnd::Disconnected
            | SessionEnd::ReadFailed
            | SessionEnd::WriteFailed
            | SessionEnd::NoMemory => Queue::Silent,
        }
    }
}
