//! What waits and isn't sent at once is sent by a thread of its own: each item becomes frames here, which are written
//! to a stream.
use crate::dialing::{Dial, StreamState};
use crate::framing::Framing;
use crate::outbox::{Outbox, Unsent, Waited};
use replica_clock::{Backoff, KeepAlive, Lack};
use std::alloc::Global;
use std::io::{BufWriter, Write};
use std::sync::Wait;
use std::time::{Clock, Duration, Instant};

/// The question whether the other end is there: a frame of no octets, which is no message's.
const QUESTION: [u8; 4] = [0; 4];

/// Frames of so many octets in all go out in one write, where their items wait together.
const HELD_BACK: usize = 16_384;

/// No frame is held back while more than so many items are begun after its own.
const TOGETHER: usize = 64;

/// How often the other end is asked whether it is there, and how long it may be silent then.
#[derive(Clone, Copy)]
pub struct LinkTimes {
    pub beat: Duration,
    pub silence: Duration,
}

/// A time in microseconds, as far as they fit.
fn micros(time: Duration) -> u64 {
    u64::try_from(time.as_micros()).unwrap_or(u64::MAX)
}

/// The moment of now, in microseconds since another one; 0, where the clock can't be read.
fn moment<R: Clock>(rt: &R, began: Option<Instant>) -> u64 {
    match (began, Instant::now(rt)) {
        (Some(began), Ok(now)) => micros(now.saturating_duration_since(began)),
        _ => 0,
    }
}

/// Writes the greeting; whether the stream took it.
fn greet<T, F: Framing<T>, W: Write>(framing: &mut F, stream: &mut W) -> bool {
    match framing.greeting() {
        Some(greeting) => {
            stream.write_all(greeting.as_slice()).is_ok() && stream.flush().is_ok()
        }
        None => false,
    }
}

/// A new stream on which it is greeted, where one can be made now.
fn dial_once<T, F: Framing<T>, D: Dial>(framing: &mut F, dialer: &mut D) -> Option<D::Stream> {
    let mut stream = dialer.dial()?;
    if greet(framing, &mut stream) {
        return Some(stream);
    }
    None
}

/// Forgets what waits. Where it is needed it comes again, as what the network loses.
fn forget_waiting<R: Wait, T: Drop, S: Drop>(rt: &R, outbox: &Outbox<T, S>) {
    for _ in rt.forever() {
        let Some(_old) = outbox.take_waiting(rt) else {
            break;
        };
    }
}

/// Makes a stream and greets on it, as often as it takes; none where it is stopped meanwhile. What waits for longer
/// than the other end may be silent isn't sent first once there is a stream again: it is forgotten.
fn dial_and_greet<R: Wait + Clock, T: Drop, F: Framing<T>, D: Dial>(
    rt: &R,
    outbox: &Outbox<T, D::Stream>,
    framing: &mut F,
    dialer: &mut D,
    silence: Duration,
) -> Option<D::Stream> {
    let began = Instant::now(rt).ok();
    let mut backoff = Backoff::new();
    let mut lack = Lack::new(micros(silence));
    for _ in rt.forever() {
        if let Some(stream) = dial_once(framing, dialer) {
            return Some(stream);
        }
        if lack.look(true, moment(rt, began)) {
            forget_waiting(rt, outbox);
        }
        if outbox.rest(rt, Duration::from_millis(backoff.rest())) {
            break;
        }
    }
    None
}

/// Takes note of what has come back on a stream; whether its other end is there.
fn listen<T, F: Framing<T>, D: Dial>(
    framing: &mut F,
    dialer: &mut D,
    keep_alive: &mut KeepAlive,
    stream: &D::Stream,
    now: u64,
) -> bool {
    match dialer.hear(stream) {
        StreamState::End => return false,
        StreamState::Refusal(why) => {
            framing.refused(why);
            return false;
        }
        StreamState::Answer => {
            keep_alive.hear();
            framing.heard();
        }
        StreamState::Nothing => {
            if !keep_alive.answers() {
                framing.heard();
            }
        }
    }
    if keep_alive.is_gone(now) {
        framing.silent();
        return false;
    }
    true
}

/// Asks whether the other end is there, where it is one that answers; whether the stream took the question.
fn ask<W: Write>(keep_alive: &mut KeepAlive, stream: &mut W, now: u64) -> bool {
    keep_alive.ask(now);
    if !keep_alive.answers() {
        return true;
    }
    stream.write_all(&QUESTION).is_ok() && stream.flush().is_ok()
}

/// The stream, unless its other end has closed it or is silent for too long; the other end is asked whether it is
/// there.
fn still_open<T, F: Framing<T>, D: Dial>(
    framing: &mut F,
    dialer: &mut D,
    keep_alive: &mut KeepAlive,
    held: Option<D::Stream>,
    now: u64,
) -> Option<D::Stream> {
    let mut stream = held?;
    if listen(framing, dialer, keep_alive, &stream, now) && ask(keep_alive, &mut stream, now) {
        return Some(stream);
    }
    None
}

/// Writes what a stream hasn't taken at once; the stream, where it took that.
fn finished<W: Write + Drop>(held: Option<W>, unsent: Option<Unsent>) -> Option<W> {
    let mut stream = held?;
    let Some(unsent) = unsent else {
        return Some(stream);
    };
    if stream.write_all(unsent.rest()).is_ok() {
        return Some(stream);
    }
    None
}

/// Waits for the next item, for no longer than a beat. Others may send on the stream meanwhile, unless it is new.
fn next_item<R: Wait + Clock, T, W: Write + Drop>(
    rt: &R,
    outbox: &Outbox<T, W>,
    stream: Option<W>,
    is_new: bool,
    beat: Duration,
) -> (Waited<T>, Option<W>) {
    if is_new {
        let (waited, _, _) = outbox.take(rt, None, beat);
        return (waited, stream);
    }
    let (waited, stream, unsent) = outbox.take(rt, stream, beat);
    (waited, finished(stream, unsent))
}

/// Writes all frames of an item; whether the stream took them.
fn write_frames<R: Wait, T, F: Framing<T>, W: Write>(
    rt: &R,
    framing: &mut F,
    stream: &mut W,
    item: T,
) -> bool {
    framing.begin(item);
    for _ in rt.forever() {
        let Some(frame) = framing.next_frame() else {
            break;
        };
        if stream.write_all(frame.as_slice()).is_err() {
            return false;
        }
    }
    true
}

/// Writes the frames of an item, and of those that wait behind it; whether the stream took them.
fn write_waiting<R: Wait, T, S: Drop, F: Framing<T>, W: Write>(
    rt: &R,
    outbox: &Outbox<T, S>,
    framing: &mut F,
    stream: &mut W,
    item: T,
) -> bool {
    if !write_frames(rt, framing, stream, item) {
        return false;
    }
    for _more in 0..TOGETHER {
        let Some(next) = outbox.take_waiting(rt) else {
            break;
        };
        if !write_frames(rt, framing, stream, next) {
            return false;
        }
    }
    stream.flush().is_ok()
}

/// Writes an item, where there is one, and those that wait behind it; the stream, where it took them.
fn sent<R: Wait, T: Drop, F: Framing<T>, W: Write + Drop>(
    rt: &R,
    alloc: Global,
    outbox: &Outbox<T, W>,
    framing: &mut F,
    stream: W,
    item: Option<T>,
) -> Option<W> {
    let Some(item) = item else {
        return Some(stream);
    };
    let mut stream = BufWriter::with_capacity(alloc, HELD_BACK, stream).ok()?;
    let is_taken = write_waiting(rt, outbox, framing, &mut stream, item);
    let (stream, _unsent) = stream.into_parts();
    if is_taken {
        return Some(stream);
    }
    framing.fail();
    None
}

/// Sends what waits in a queue, item by item in the order of the queue, over a stream that is made again whenever it
/// fails, or its other end has closed it or is silent for too long, until the queue is stopped. A stream is made before
/// there is an item, and a greeting is first on each. Frames are made here, once there is a stream for them, and
/// outside the queue's lock; those of items that wait together go out together. An item whose stream fails is lost,
/// whole or in part, with those that were to go out with it, and so is the stream. So is what waits while no stream can
/// be made for longer than the other end may be silent. While this waits, others send at once on the stream.
pub fn send_all<R: Wait + Clock, T: Drop, F: Framing<T>, D: Dial>(
    rt: &R,
    alloc: Global,
    outbox: &Outbox<T, D::Stream>,
    framing: &mut F,
    dialer: &mut D,
    times: LinkTimes,
) {
    let began = Instant::now(rt).ok();
    let mut keep_alive = KeepAlive::new(micros(times.beat), micros(times.silence));
    let mut stream = dial_and_greet(rt, outbox, framing, dialer, times.silence);
    keep_alive.begin(moment(rt, began));
    // A new stream is looked at before the first item goes out on it: its other end may have turned it away.
    let mut is_new = true;
    for _ in rt.forever() {
        let (waited, held) = next_item(rt, outbox, stream, is_new, times.beat);
        stream = held;
        let item = match waited {
            Waited::Item(item) => Some(item),
            Waited::Nothing => None,
            Waited::Stopped => break,
        };
        let now = moment(rt, began);
        let is_first = is_new && item.is_some();
        if is_first || keep_alive.is_due(now) {
            stream = still_open(framing, dialer, &mut keep_alive, stream, now);
        }
        if stream.is_none() {
            stream = dial_and_greet(rt, outbox, framing, dialer, times.silence);
            keep_alive.begin(moment(rt, began));
            is_new = true;
        } else if is_first {
            is_new = false;
        }
        let Some(open) = stream else {
            return;
        };
        stream = sent(rt, alloc, outbox, framing, open, item);
    }
}
