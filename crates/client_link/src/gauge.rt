//! Where the messages of a stream end, as far as a clock has to know it.
ghost use Rattle.std.specs.Prelude.{◌≡◌, ◌<◌, ◌≤◌, length};

use std::marker::PhantomData;

/// How many octets a heading may have, at most.
const HEADING: usize = 8;

/// What a heading says of the octets behind it.
#[derive(Clone, Copy, Debug, PartialEq, Eq)]
pub enum Rest {
    /// So many belong to the message.
    Of(u64),
    /// The heading isn't whole yet.
    Awaited,
    /// It is no heading, so no message ends any more.
    Endless,
}

/// How a message begins.
pub trait Heading {
    /// What the first octets of a message say of the rest. It is asked with each octet of the heading more.
    fn rest(octets: &[u8]) -> Rest;
}

/// Follows a stream from message to message.
#[derive(Drop)]
pub struct Gauge<H> {
    heading: [u8; HEADING],
    filled: usize,
    left: u64,
    count: u64,
    kind: PhantomData<H>,
    ghost short: { filled < 8 },
}

impl<H> Gauge<H> {
    /// A stream of which nothing has come.
    pub fn new() -> Gauge<H> {
        Gauge {
            heading: [0; HEADING],
            filled: 0,
            left: 0,
            count: 0,
            kind: PhantomData,
        }
    }

    /// Whether a message has begun that is not whole.
    pub fn is_inside(&self) -> bool {
        self.left > 0 || self.filled > 0
    }

    /// How many messages were whole; 18446744073709551615 stands for any greater number too.
    pub fn count(&self) -> u64 {
        self.count
    }
}

impl<H: Heading> Gauge<H> {
    /// The next octets of the stream.
    pub fn feed(&mut self, octets: &[u8]) {
        let mut at = 0usize;
        while at < octets.len() {
            at += self.take(&octets[at..]);
        }
    }

    /// Takes some octets at the front; how many.
    fn take(&mut self, octets: &[u8]) -> usize
        requires { 0 < length octets.now }
        ensures some { 0 < result }
        ensures within { result ≤ length octets.now }
    {
        if self.left == 0 {
            self.take_heading(octets[0]);
            return 1;
        }
        let count = self.left.min(octets.len() as u64);
        self.left -= count;
        if self.left == 0 {
            self.count = self.count.saturating_add(1);
        }
        count as usize
    }

    /// Takes an octet of a heading.
    fn take_heading(&mut self, octet: u8) {
        self.heading[self.filled] = octet;
        let filled = self.filled + 1;
        self.filled = 0;
        match H::rest(&self.heading[..filled]) {
            Rest::Of(0) => self.count = self.count.saturating_add(1),
            Rest::Of(left) => self.left = left,
            Rest::Awaited => {
                if filled < HEADING {
                    self.filled = filled;
                } else {
                    self.left = u64::MAX;
                }
            }
            Rest::Endless => self.left = u64::MAX,
        }
    }
}
