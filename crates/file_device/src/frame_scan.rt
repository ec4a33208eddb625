//! Finds how far whole frames reach in octets that come in pieces.
use journal::{FRAME_HEADER, nonzeros};

/// How many octets of a frame's header each of its two numbers has.
const DIGITS: usize = FRAME_HEADER / 2;

/// The least octet of a header.
const LEAST: u8 = 128;

/// What is known of a frame whose header may not be read to its end yet.
#[derive(Clone, Copy)]
struct Frame {
    /// How many octets of the header were read.
    header: usize,
    /// What the header says, as far as it was read: how long the string is, and how many of its octets aren't 0.
    length: u64,
    nonzeros: u64,
    /// How many octets of the string were read, and how many of these aren't 0.
    read: u64,
    counted: u64,
}

/// A frame of which nothing was read.
const NEW: Frame = Frame {
    header: 0,
    length: 0,
    nonzeros: 0,
    read: 0,
    counted: 0,
};

/// How far whole frames reach in the octets that were given.
#[derive(Clone, Copy)]
pub struct FrameScan {
    end: u64,
    frame: Frame,
    is_over: bool,
}

/// What a digit adds to a number.
fn digit(octet: u8, place: usize) -> u64 {
    let weight = match place {
        0 => 1,
        1 => 0x80,
        2 => 0x4000,
        3 => 0x20_0000,
        _ => 0x1000_0000,
    };
    u64::from(octet.saturating_sub(LEAST)) * weight
}

impl FrameScan {
    /// Before the first octet.
    pub fn new() -> FrameScan {
        FrameScan {
            end: 0,
            frame: NEW,
            is_over: false,
        }
    }

    /// Where the last whole frame ends.
    pub fn end(&self) -> u64 {
        self.end
    }

    /// Takes one octet of a header.
    fn take_digit(&mut self, octet: u8) {
        if octet < LEAST {
            self.is_over = true;
            return;
        }
        let frame = &mut self.frame;
        if frame.header < DIGITS {
            frame.length = frame.length.saturating_add(digit(octet, frame.header));
        } else {
            let place = frame.header - DIGITS;
            frame.nonzeros = frame.nonzeros.saturating_add(digit(octet, place));
        }
        frame.header = frame.header.saturating_add(1);
    }

    /// Takes octets of a string.
    fn take_string(&mut self, octets: &[u8]) {
        let frame = &mut self.frame;
        frame.read = frame.read.saturating_add(octets.len() as u64);
        frame.counted = frame.counted.saturating_add(nonzeros(octets));
    }

    /// Ends the frame where all of it was read.
    fn end_frame(&mut self) {
        let frame = self.frame;
        if frame.header < FRAME_HEADER || frame.read < frame.length {
            return;
        }
        if frame.counted == frame.nonzeros {
            let size = frame.length.saturating_add(FRAME_HEADER as u64);
            self.end = self.end.saturating_add(size);
            self.frame = NEW;
        } else {
            self.is_over = true;
        }
    }

    /// Takes as many of these octets as the header or the string at hand needs; the others.
    fn take_some<'a>(&mut self, octets: &'a [u8]) -> &'a [u8] {
        let Some((first, rest)) = octets.split_first() else {
            return octets;
        };
        let rest = if self.frame.header < FRAME_HEADER {
            self.take_digit(*first);
            rest
        } else {
            let left = self.frame.length.saturating_sub(self.frame.read);
            let count = left.min(octets.len() as u64) as usize;
            let (taken, rest) = octets.split_at(count);
            self.take_string(taken);
            rest
        };
        self.end_frame();
        rest
    }

    /// Takes a piece of the octets, which follows what was taken before.
    pub fn take(&mut self, piece: &[u8]) {
        let mut octets = piece;
        for _ in 0..piece.len() {
            if self.is_over || octets.is_empty() {
                return;
            }
            octets = self.take_some(octets);
        }
    }
}
