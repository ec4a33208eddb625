//! Sends what waits in the thread that has put it, as far as the stream takes it without waiting.
use crate::dialing::WriteAtOnce;
use crate::framing::Spell;
use crate::outbox::{Outbox, Unsent};
use crate::turns::ROUNDS;
use std::alloc::Global;
use std::sync::Wait;

/// No further item is spelled once so many octets are to be written at once.
const AT_ONCE: usize = 8_192;

/// Nor more than so many items.
const TOGETHER: usize = 64;

/// Writes octets once: the stream, unless it has failed, and what it hasn't taken, if anything is left.
fn write_once<S: WriteAtOnce + Drop>(
    mut stream: S,
    octets: Vec<u8>,
) -> (Option<S>, Option<Unsent>) {
    match stream.write_at_once(octets.as_slice()) {
        Ok(taken) if taken == octets.len() => (Some(stream), None),
        Ok(taken) => (Some(stream), Some(Unsent { octets, taken })),
        Err(_) => (None, None),
    }
}

/// The octets of the short items that wait, of the first ones where they are many.
fn spell_waiting<R: Wait, T, S: Drop, F: Spell<T>>(
    rt: &R,
    alloc: Global,
    outbox: &Outbox<T, S>,
    spelling: &mut F,
) -> Vec<u8> {
    let mut octets = Vec::new(alloc);
    for _more in 0..TOGETHER {
        if octets.len() >= AT_ONCE {
            break;
        }
        let Some(item) = outbox.take_short(rt) else {
            break;
        };
        spelling.spell(item, &mut octets);
    }
    octets
}

impl<T, S: WriteAtOnce + Drop> Outbox<T, S> {
    /// Sends what waits, where that is short and no thread has the stream, as far as it takes it without waiting. Else
    /// the sender is called, unless another thread sends already that looks again. It waits for nothing but the lock.
    /// Items that come meanwhile are sent too, a few times; then the rest is the sender's.
    pub fn send_at_once<R: Wait, F: Spell<T>>(&self, rt: &R, alloc: Global, spelling: &mut F) {
        let mut begun = self.begin(rt);
        for round in 1..=ROUNDS {
            let Some(stream) = begun else {
                return;
            };
            let octets = spell_waiting(rt, alloc, self, spelling);
            let (stream, unsent) = write_once(stream, octets);
            begun = self.end_round(rt, stream, unsent, round);
        }
    }
}
