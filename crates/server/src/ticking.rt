//! A node with its clock: what other replicas sent, and what a replica does by itself.
use crate::opening::fault_of_node;
use crate::options::Times;
use crate::peer_queues::{PeerQueues, PeerQueuesAt};
use crate::telling::{
    tell_caught_up, tell_hung, tell_majority, tell_no_majority, tell_pulse, tell_resumed,
    tell_stuck, tell_unstuck,
};
use file_device::{FileDevice, JournalFile, JournalGuard, ViewGuard};
use node_gate::{
    Arrival, Majority, NodeError, NodeIdentity, Op, Pace, PeerMessage, Progress, Pulse, Send,
    SharedNode, Standing, Steps, Ticked, copies, send_all,
};
use server_threads::{
    Build, Engine, Figures, Lack, MessageHandler, Monitored, Role, ServerError, SharedParts,
    Trouble,
};
use std::alloc::{AllocError, Global};
use std::fs::{File, Files};
use std::io::Read;
use std::sync::Wait;
use std::sync::atomic::{AtomicU64, Ordering};
use std::time::{Clock, Duration, Instant};

/// How long threads may take to begin, in milliseconds.
const THREADS_LIMIT: u64 = 2_000;

/// How soon the node is asked for again where another thread has it, in microseconds.
const AGAIN: u64 = 2_000;

/// What the thread of the clock keeps.
#[derive(Drop)]
struct Watch {
    pulse: Pulse,
    /// What the last beat sent, and when that may be sent again.
    beat: Vec<Send<Op>>,
    pace: Pace,
    /// Whether threads are missing that were to have begun.
    lack: Lack,
    /// How the step goes that the node is at, and what was told of it.
    steps: Steps,
    progress: Progress,
    /// Which replicas are heard, by how many signs of life each had given at the last look.
    majority: Majority,
    signs: Vec<u64>,
    /// How many parts of long messages each had taken by then.
    taken: Vec<u64>,
    has_majority: bool,
    /// When the replica's files may be looked at again.
    looks: Pace,
}

/// A node with its clock.
#[derive(Drop)]
pub struct TimedNode<'a, 'r, R: Wait, I: NodeIdentity> {
    pub rt: &'a R,
    pub alloc: Global,
    pub running: &'a SharedNode<'r, R, FileDevice, JournalFile, I>,
    pub peer_queues: &'a PeerQueues<'a, R>,
    pub shared_parts: &'a SharedParts,
    pub times: Times,
    /// When the node was opened: its clock counts the microseconds from then on.
    pub opened: Instant,
    /// The node's view, and its last update, when its clock was asked last.
    pub view_number: AtomicU64,
    pub last_update: AtomicU64,
    /// How many entries the directory had then, and how many records the log.
    pub entries: AtomicU64,
    pub log_length: AtomicU64,
    /// What looks at the file of the stored view, and at that of the journal, where it keeps one; and which start of
    /// the replica stored the view, counted from 1.
    pub view_guard: &'a ViewGuard,
    pub journal_guard: &'a Option<JournalGuard>,
    pub restarts: u64,
    /// How many records the journal told of the log, where the node is still to catch up with them; asked before any
    /// thread begins, since it may catch up at once.
    pub resumed: Option<u64>,
    /// Whether the program's proofs were checked.
    pub is_proved: bool,
    /// What keeps the replica from serving, as a word.
    pub trouble: AtomicU64,
}

/// The words of what keeps a replica from serving.
const WELL: u64 = 0;

const STUCK: u64 = 1;

const HUNG: u64 = 2;

const NO_MAJORITY: u64 = 3;

/// What keeps a replica from serving, by its word.
fn trouble_of(word: u64) -> Trouble {
    match word {
        STUCK => Trouble::Stuck,
        HUNG => Trouble::Hung,
        NO_MAJORITY => Trouble::NoMajority,
        _ => Trouble::None,
    }
}

/// Whether records may be left out of a message's log.
fn has_log(message: &PeerMessage<Op>) -> bool {
    matches!(
        message,
        PeerMessage::DoViewChange { .. } | PeerMessage::StartView { .. }
    )
}

/// What is known of a node with its clock before the first look.
fn first_watch<'a, 'r, R: Wait, I: NodeIdentity>(
    timed: &TimedNode<'a, 'r, R, I>,
    pulse: Pulse,
    now: u64,
) -> Result<Watch, AllocError> {
    let shared_parts: &SharedParts = timed.shared_parts;
    let times = clock_times(&timed.times);
    let count = shared_parts.uris.len();
    let own = usize::from(shared_parts.sender);
    Ok(Watch {
        pulse,
        beat: Vec::new(timed.alloc),
        pace: Pace::new(times),
        lack: Lack::new(THREADS_LIMIT * 1_000),
        steps: Steps::new(times),
        progress: Progress::Well,
        majority: Majority::new(timed.alloc, times, own, count, now)?,
        signs: Vec::from_elem(timed.alloc, 0u64, count)?,
        taken: Vec::from_elem(timed.alloc, 0u64, count)?,
        has_majority: true,
        looks: Pace::new(times),
    })
}

impl<'a, 'r, R: Wait + Clock, I: NodeIdentity> TimedNode<'a, 'r, R, I> {
    /// The moment of now, in microseconds since the node was opened; that of a clock that can't be read is the first.
    fn now(&self) -> u64 {
        match Instant::now(self.rt) {
            Ok(now) => micros(now.saturating_duration_since(self.opened)),
            Err(_) => 0,
        }
    }

    /// The seconds since 1970; 0 where no clock tells.
    fn seconds(&self) -> u64 {
        match self.rt.since_1970() {
            Ok(moment) => moment.as_secs(),
            Err(_) => 0,
        }
    }

    /// The way to the queues, for what is sent at this moment.
    fn peer_queues_at(&self, now: u64) -> PeerQueuesAt<'a, R> {
        PeerQueuesAt {
            peer_queues: self.peer_queues,
            now,
        }
    }

    /// Sends a primary's last beat once more, where the node is at a step for longer than a beat: the others are to
    /// know that it is there. It is silent where the step never seems to end, so that they go on without it.
    fn beat_again(&self, watch: &mut Watch, now: u64) {
        let leads = watch.pulse.standing == Standing::Primary;
        if !watch.steps.beats_again(leads, &mut watch.pace, now) {
            return;
        }
        if let Ok(sends) = copies(self.alloc, watch.beat.as_slice()) {
            let mut peer_queues = self.peer_queues_at(now);
            send_all(&mut peer_queues, sends);
            self.peer_queues.send_posted();
        }
    }

    /// Tells how the step goes that the node is at, where that has changed.
    fn tell_step(&self, watch: &mut Watch, progress: Progress) {
        if watch.progress == progress {
            return;
        }
        watch.progress = progress;
        match progress {
            Progress::Well => tell_unstuck(self.rt, self.alloc, &self.shared_parts.reporter),
            Progress::Stuck => tell_stuck(self.rt, self.alloc, &self.shared_parts.reporter),
            Progress::Hung => tell_hung(self.rt, self.alloc, &self.shared_parts.reporter),
        }
    }

    /// The node is at a step.
    fn note_busy(&self, watch: &mut Watch, now: u64) {
        watch.steps.busy(self.running.steps(), now);
        let progress = watch.steps.progress(now);
        self.tell_step(watch, progress);
    }

    /// The node is at no step.
    fn note_free(&self, watch: &mut Watch) {
        watch.steps.free();
        self.tell_step(watch, Progress::Well);
    }

    /// Takes note of the signs of life that other replicas have given since the last look.
    fn hear_signs(&self, watch: &mut Watch, now: u64) {
        let counters = &self.shared_parts.counters;
        for (from, seen) in watch.signs.iter_mut().enumerate() {
            let signs = counters.signs_of(from);
            if *seen != signs {
                *seen = signs;
                counters.note_heard(from, self.seconds());
                watch.majority.hear(from, now);
            }
        }
    }

    /// Has the clock hear of the parts of long messages that other replicas have taken since the last look.
    fn hear_taken(&self, watch: &mut Watch, now: u64) {
        for (to, seen) in watch.taken.iter_mut().enumerate() {
            let taken = self.shared_parts.progress.taken(to);
            if *seen != taken && self.running.hear_taken(to as u64, now) {
                *seen = taken;
            }
        }
    }

    /// The whole message, where records were left out of it that the node has committed; else it is lost, as the
    /// network may lose it, and comes again.
    fn whole(&self, message: PeerMessage<Op>, noted: Option<u64>) -> Option<PeerMessage<Op>> {
        let Some(left_out) = noted else {
            return Some(message);
        };
        if !has_log(&message) {
            return Some(message);
        }
        let (taken, _) = self.running.fill(self.rt, self.alloc, left_out, message);
        match taken {
            Ok(whole) => whole,
            Err(_) => None,
        }
    }

    /// Looks whether a primary still hears from a majority, and tells sessions and the operator where that has changed.
    fn look_for_majority(&self, watch: &mut Watch, now: u64) {
        self.hear_signs(watch, now);
        let is_heard = watch.majority.ask(now);
        let has_majority = is_heard || watch.pulse.standing != Standing::Primary;
        if watch.has_majority == has_majority {
            return;
        }
        watch.has_majority = has_majority;
        self.running.set_majority(has_majority);
        if !has_majority {
            tell_no_majority(self.rt, self.alloc, &self.shared_parts.reporter);
        } else if is_heard {
            tell_majority(self.rt, self.alloc, &self.shared_parts.reporter);
        }
    }

    /// Keeps for monitors what keeps the replica from serving.
    fn keep_trouble(&self, watch: &Watch) {
        let word = match watch.progress {
            Progress::Hung => HUNG,
            Progress::Stuck => STUCK,
            Progress::Well => {
                if watch.has_majority {
                    WELL
                } else {
                    NO_MAJORITY
                }
            }
        };
        self.trouble.store(word, Ordering::SeqCst);
    }

    /// Takes note of what came of asking the clock.
    fn take(&self, watch: &mut Watch, ticked: Ticked<FileDevice, JournalFile>, now: u64) -> u64 {
        let Ticked {
            pulse,
            wait,
            beat,
            due: _,
            acted: _,
        } = ticked;
        self.view_number.store(pulse.view_number, Ordering::SeqCst);
        self.last_update.store(pulse.last_update, Ordering::SeqCst);
        self.entries.store(pulse.entries, Ordering::SeqCst);
        self.log_length.store(pulse.log_length, Ordering::SeqCst);
        self.shared_parts.progress.commit(pulse.last_update);
        self.shared_parts.start.make(pulse.last_update);
        if !pulse.is_like(&watch.pulse) {
            tell_pulse(self.rt, self.alloc, &self.shared_parts.reporter, &pulse);
            watch.beat = Vec::new(self.alloc);
        }
        if let Some(beat) = beat {
            watch.beat = beat;
            watch.pace.note(now);
        }
        watch.pulse = pulse;
        wait
    }

    /// Does what is due at one moment; after how many microseconds to come again.
    fn tick(&self, watch: &mut Watch) -> u64 {
        let now = self.now();
        self.hear_taken(watch, now);
        let mut peer_queues = self.peer_queues_at(now);
        let ticked = self
            .running
            .tick(self.rt, self.alloc, &mut peer_queues, now);
        let wait = match ticked {
            Some(ticked) => {
                self.note_free(watch);
                self.take(watch, ticked, now)
            }
            None => {
                self.note_busy(watch, now);
                self.beat_again(watch, now);
                AGAIN
            }
        };
        self.look_for_majority(watch, now);
        self.keep_trouble(watch);
        wait
    }

    /// Says once that the node has caught up with what its journal told, when it has; whether it has.
    fn tell_progress(&self, was_caught_up: bool) -> bool {
        if was_caught_up {
            return true;
        }
        let is_caught_up = self.running.is_caught_up(self.rt);
        if is_caught_up {
            self.shared_parts.start.end();
            tell_caught_up(self.rt, self.alloc, &self.shared_parts.reporter);
        }
        is_caught_up
    }

    /// Why no events are taken any more.
    fn end_of_driving(&self) -> Result<(), ServerError> {
        match self.running.failure(self.rt) {
            Some(error) => Err(fault_of_node(error)),
            None => Ok(()),
        }
    }

    /// A batch was handled that began at this moment.
    fn note_batch(&self, began: u64) {
        let time = Duration::from_micros(self.now().saturating_sub(began));
        self.shared_parts.counters.note_batch(Some(time));
    }

    /// Whether threads are missing that should have begun long ago.
    fn is_short_of_threads(&self, watch: &mut Watch) -> bool {
        let is_missing = !self.shared_parts.needed_threads.is_whole();
        watch.lack.look(is_missing, self.now())
    }
}

impl<'a, 'r, R: Wait + Clock + Files<File = File>, I: NodeIdentity> TimedNode<'a, 'r, R, I> {
    /// Which file is lost, if one is, as far as that shows; they are looked at once a beat.
    fn lost_file(&self, watch: &mut Watch) -> Option<ServerError> {
        if !watch.looks.take_turn(self.now()) {
            return None;
        }
        if self
            .view_guard
            .is_lost(self.rt, self.restarts, watch.pulse.view_number)
        {
            return Some(ServerError::ViewLost);
        }
        match self.journal_guard {
            Some(journal) => {
                if journal.is_lost(self.rt) {
                    return Some(ServerError::JournalLost);
                }
                self.shared_parts.counters.set_journal(journal.size());
                None
            }
            None => None,
        }
    }
}

/// What a replica does that stands so.
fn role_of(standing: Standing) -> Role {
    match standing {
        Standing::Primary => Role::Primary,
        Standing::Backup { primary: _ } => Role::Backup,
        Standing::Changing => Role::Changing,
        Standing::Recovering => Role::Recovering,
    }
}

/// The times of a node's clock, in microseconds.
pub fn clock_times(times: &Times) -> node_gate::Times {
    node_gate::Times::new(micros(times.beat), micros(times.suspect))
}

/// The microseconds of a time, as far as they fit.
pub fn micros(time: Duration) -> u64 {
    let micros = time.as_micros();
    u64::try_from(micros).unwrap_or(u64::MAX)
}

impl<'a, 'r, R: Wait + Clock, I: NodeIdentity> MessageHandler for TimedNode<'a, 'r, R, I> {
    fn hear(&self, from: u64, message: PeerMessage<Op>, noted: Option<u64>) -> bool {
        let now = self.now();
        self.shared_parts.counters.hear(from);
        self.shared_parts.progress.hear(from, &message, noted);
        if self
            .shared_parts
            .progress
            .is_held_back(self.rt, from, &message)
        {
            return true;
        }
        let Some(message) = self.whole(message, noted) else {
            return true;
        };
        self.shared_parts.progress.hand_on(self.rt, from, &message);
        match &message {
            PeerMessage::NewState { .. } => self.peer_queues.asking.lock(self.rt).reset(),
            PeerMessage::PrepareOk { op_number, .. } => {
                self.shared_parts.counters.acknowledge(from, *op_number);
            }
            _ => {}
        }
        let arrival = Arrival {
            from,
            message,
            at: now,
        };
        let mut peer_queues = self.peer_queues_at(now);
        let (done, _) = self
            .running
            .give_message(self.rt, self.alloc, &mut peer_queues, arrival);
        match done {
            // Without memory the message is lost, as the network may lose one.
            Ok(()) | Err(NodeError::NoMemory) => true,
            Err(_) => false,
        }
    }

    fn hear_part(&self, from: u64) {
        self.running.hear_part(self.rt, from, self.now());
    }
}

// prover: the type that reads a folder has a name, so that what is known of it holds in every thread.
impl<'a, 'r, R, N, I> Engine for TimedNode<'a, 'r, R, I>
where
    R: Wait + Clock + Files<File = File, Dir = N>,
    N: Read + Drop,
    I: NodeIdentity,
{
    fn run(&self) -> Result<(), ServerError> {
        let pulse = self.running.pulse(self.rt);
        tell_pulse(self.rt, self.alloc, &self.shared_parts.reporter, &pulse);
        if let Some(records) = self.resumed {
            tell_resumed(
                self.rt,
                self.alloc,
                &self.shared_parts.reporter,
                records,
                pulse.view_number,
            );
        }
        let mut watch = first_watch(self, pulse, self.now())?;
        for _ in self.rt.forever() {
            let wait = self.tick(&mut watch);
            if self.running.rest(self.rt, Duration::from_micros(wait)) {
                break;
            }
            if self.is_short_of_threads(&mut watch) {
                return Err(ServerError::NoThread);
            }
            if watch.pulse.is_halted {
                return Err(ServerError::DeviceFailed);
            }
            if self.shared_parts.is_refused.load(Ordering::SeqCst) {
                return Err(ServerError::OlderFiles);
            }
            if let Some(lost) = self.lost_file(&mut watch) {
                return Err(lost);
            }
        }
        Ok(())
    }

    fn drive(&self) -> Result<(), ServerError> {
        let mut was_caught_up = self.resumed.is_none();
        for _ in self.rt.forever() {
            let Some(batch) = self.running.next_batch(self.rt, self.alloc) else {
                return self.end_of_driving();
            };
            let now = self.now();
            let mut peer_queues = self.peer_queues_at(now);
            let (done, _) = self
                .running
                .handle_batch(self.rt, self.alloc, &mut peer_queues, batch, now);
            self.note_batch(now);
            done.map_err(fault_of_node)?;
            was_caught_up = self.tell_progress(was_caught_up);
        }
        Ok(())
    }

    fn look_again(&self) {
        self.running.look_again();
    }

    fn stop(&self) {
        self.running.stop(self.rt);
    }
}

/// Where the system shows the descriptors that the process has open, a name each.
const DESCRIPTORS: &str = "/proc/self/fd";

/// How many names a folder has.
fn names_in<N: Read>(folder: &mut N) -> Option<u64> {
    let mut room = [0u8; 4_096];
    let mut count: u64 = 0;
    for _ in 0..u64::MAX {
        let length = folder.read(&mut room).ok()?;
        if length == 0 {
            break;
        }
        for octet in room.get(..length)? {
            count = count.saturating_add(u64::from(*octet == 0));
        }
    }
    Some(count)
}

// prover: the type that reads a folder has a name, so that what is known of it holds in every thread.
impl<'a, 'r, R, N, I> Monitored for TimedNode<'a, 'r, R, I>
where
    R: Wait + Clock + Files<File = File, Dir = N>,
    N: Read + Drop,
    I: NodeIdentity,
{
    fn figures(&self) -> Figures {
        Figures {
            build: if self.is_proved {
                Build::Proved
            } else {
                Build::Unproved
            },
            trouble: trouble_of(self.trouble.load(Ordering::SeqCst)),
            role: role_of(self.running.standing()),
            view_number: self.view_number.load(Ordering::SeqCst),
            last_update: self.last_update.load(Ordering::SeqCst),
            entries: self.entries.load(Ordering::SeqCst),
            log_length: self.log_length.load(Ordering::SeqCst),
            start: self.shared_parts.start.start(),
            sessions: self.shared_parts.sessions(),
        }
    }

    fn descriptors(&self) -> Option<u64> {
        let mut folder = self.rt.open_dir(DESCRIPTORS).ok()?;
        // The folder itself is open meanwhile.
        names_in(&mut folder)?.checked_sub(1)
    }
}
