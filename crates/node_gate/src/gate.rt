// A session's gate to a running node: its updates and their outcomes.
ghost use Rattle.std.specs.Prelude.{◌≡◌, None, Some};
ghost use Rattle.std.specs.Option.{option_map};
ghost use Rattle.dir_seats.specs.directory_api.View.{ended_view};
ghost use Rattle.node_gate.specs.private.Shared.{GivesRequest, IsRefused, IsUpdated, request_of};

use crate::ending::Request;
use crate::identity::NodeIdentity;
use crate::moved::Moved;
use crate::peers::Peers;
use crate::published::Here;
use crate::running::SharedNode;
use dir_node::{Client, Device, Event, JournalDevice, LogEntry, Node, NodeError, Op, Standing};
use dir_seats::{Ended, Gate, Role, Told, Update};
use std::alloc::Global;
use std::marker::PhantomData;
use std::snapshot::Snapshot;
use std::sync::Wait;
use std::sync::atomic::AtomicBool;

/// One session's way to a node for updates. The runtime is a part of it, since an update waits for its outcome.
pub struct NodeGate<'a, 'r, R: Wait, D: Device, J: JournalDevice, I: NodeIdentity, P> {
    rt: &'a R,
    running: &'a SharedNode<'r, R, D, J, I>,
    peers: P,
    /// The URI of each replica, by index (RFC 4516).
    uris: &'a [String],
    /// Whether the client has left whose update is waited for.
    has_left: &'a AtomicBool,
    asked: u64,
    /// The event that was given for the last update, if one was, what it made of the node where it wasn't posted, and
    /// the node as the lock held it when that update had ended: for clauses alone.
    given: Option<Snapshot<Event<Op>>>,
    moved: Option<Moved<D, J>>,
    held: Option<Snapshot<Node<D, J>>>,
    // prover: the runtime lives as long as the node, which the lock round that hides.
    lives: PhantomData<&'r R>,
}

// Not derived: see "What the gate takes" in docs/ARCHITECTURE.md.
impl<'a, 'r, R: Wait, D: Device, J: JournalDevice, I: NodeIdentity, P: Drop> Drop
    for NodeGate<'a, 'r, R, D, J, I, P> {
    fn drop(self) {
        let NodeGate {
            rt: _,
            running: _,
            peers: _,
            uris: _,
            has_left: _,
            asked: _,
            given: _,
            moved: _,
            held: _,
            lives: _,
        } = self;
    }
}

impl<'a, 'r, R: Wait, D: Device, J: JournalDevice, I: NodeIdentity, P> NodeGate<
    'a,
    'r,
    R,
    D,
    J,
    I,
    P,
> {
    pub fn new(
        rt: &'a R,
        running: &'a SharedNode<'r, R, D, J, I>,
        peers: P,
        uris: &'a [String],
        has_left: &'a AtomicBool,
    ) -> NodeGate<'a, 'r, R, D, J, I, P>
        ensures nothing { (result.asked ≡ 0) × (result.given ≡ None) × (result.held ≡ None) }
    {
        NodeGate {
            rt,
            running,
            peers,
            uris,
            has_left,
            asked: 0,
            given: None,
            moved: None,
            held: None,
            lives: PhantomData,
        }
    }

    /// The role of a backup of this primary.
    fn backup_of(&self, alloc: Global, primary: u64) -> Role {
        match self.uris.get(primary as usize) {
            Some(uri) => match String::from_str(alloc, uri.as_str()) {
                Ok(uri) => Role::Backup { uri },
                Err(_) => Role::Changing,
            },
            None => Role::Changing,
        }
    }
}

/// How an update ends that the node doesn't take.
fn ended_by(error: NodeError) -> Ended
    ensures { IsRefused (ended_view result) }
{
    match error {
        NodeError::NoMemory => Ended::NoMemory,
        _ => Ended::Lost,
    }
}

impl<'a, 'r, R: Wait, D: Device, J: JournalDevice, I: NodeIdentity, P: Peers> NodeGate<
    'a,
    'r,
    R,
    D,
    J,
    I,
    P,
> {
    /// Hands a request to the node, and waits for its outcome, or until its client has left: then it counts as lost,
    /// and goes on.
    fn ask(&mut self, alloc: Global, client: Client, number: u64, payload: Op) -> Ended
        ensures given { option_map (λ s. s.value) self.new.given ≡ Some (request_of client number payload) }
        ensures made { GivesRequest I.own (option_map (λ m. (m.before.value, m.after.value)) self.new.moved)
            (request_of client number payload) }
        ensures ended { IsUpdated I.own (option_map (λ s. s.value) self.new.held) client number (ended_view result) }
        ensures asked { self.new.asked ≡ self.old.asked }
    {
        let event = Event::Request {
            entry: LogEntry {
                client,
                request_number: number,
                payload,
            },
        };
        let (done, handed) = self.running.give(self.rt, alloc, &mut self.peers, event);
        let (given, moved) = handed.into_parts();
        self.given = Some(given);
        match done {
            Ok(event) => {
                self.moved = moved;
                let request = Request {
                    client,
                    number,
                    event,
                };
                let (ended, held) = self.running.settled(self.rt, alloc, request, self.has_left);
                self.held = Some(held);
                ended
            }
            Err(error) => {
                self.moved = None;
                ended_by(error)
            }
        }
    }
}

impl<'a, 'r, R: Wait, D: Device, J: JournalDevice, I: NodeIdentity, P: Peers> Gate<
    Option<Told<Here>>,
> for NodeGate<'a, 'r, R, D, J, I, P> {
    ghost use Rattle.std.specs.Prelude.{◌≡◌, ◌+◌, min};
    ghost use Rattle.std.specs.Option.{option_map};
    ghost use Rattle.dir_seats.specs.directory_api.Counting.{updates_of, greatest_count};
    ghost use Rattle.node_gate.specs.private.Shared.{gates};

    // What is given to the node is the request that was asked, and an update ends as its outcome at a state of the node
    // with this identity that the lock held; the count rises by one with each.
    ghost allows = { λ d x e. (e.asked ≡ min (d.asked + updates_of x) greatest_count)
        × gates I.own (option_map (λ s. s.value) e.given) (option_map (λ m. (m.before.value, m.after.value)) e.moved)
        (option_map (λ s. s.value) e.held) x };

    ghost count = { λ d. d.asked };

    /// Neither the role nor what is told is waited for.
    fn role(&mut self, alloc: Global) -> (Role, Option<Told<Here>>) {
        // No update more is asked of it.
        self.asked = self.asked.saturating_add(0);
        let role = match self.running.standing_to_sessions() {
            Standing::Primary => Role::Primary,
            Standing::Backup { primary } => self.backup_of(alloc, primary),
            Standing::Changing => Role::Changing,
            Standing::Recovering => Role::Recovering,
        };
        (role, self.running.told())
    }

    fn update(&mut self, alloc: Global, client: Client, number: u64, update: Update) -> Ended {
        self.asked = self.asked.saturating_add(1);
        self.given = None;
        match Op::new(alloc, update) {
            Ok(payload) => self.ask(alloc, client, number, payload),
            Err(_) => Ended::NoMemory,
        }
    }

    fn asked(&self) -> u64 {
        self.asked
    }

    ghost counts = { λ _ _ _ p. p.0 };
}
