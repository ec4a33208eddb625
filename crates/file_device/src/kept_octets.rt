//! Holds the octets of a file: all as clauses know them, in no memory, and those at its end that reads are answered
//! from.
ghost use Rattle.std.specs.Prelude.{◌≡◌, ◌≤◌, ◌<◌, ◌+◌, ◌-◌, ◌++◌, ◌∷◌, ◌^◌, [], IsTrue, OnOk, length, max, vec_len, take, drop, true, false};
ghost use Rattle.journal.specs.Memory.{write, grow, settle};
ghost use Rattle.file_device.specs.History.{no_history, octets_of};
ghost use Rattle.file_device.specs.private.Within.{are_within};
ghost use Rattle.file_device.specs.private.Pieces.{are_zeros, octets_in};

use crate::copying::copy_out;
use crate::first_block::BLOCK;
use crate::frame_scan::FrameScan;
use crate::known_octets::KnownOctets;
use journal::nonzeros;
use std::alloc::{AllocError, Global};
use std::fs::File;
use std::io;
use std::os::unix::fs::FileExt;

/// The octets of a file. So many at its end are in memory, in pieces, and the fields say that these are the file's.
pub struct KeptOctets {
    pub(crate) known: KnownOctets,
    size: u64,
    kept: u64,
    pieces: Vec<Vec<u8>>,
    ghost writes_within: { are_within known.history.base known.history.events ≡ true },
    ghost sized: { size ≡ length (octets_of known.history) },
    ghost within: { kept ≤ size },
    ghost kept_are: { octets_in pieces.items ≡ drop (size - kept) (octets_of known.history) },
}

impl Drop for KeptOctets {
    fn drop(self) {
        let KeptOctets {
            known: _,
            size: _,
            kept: _,
            pieces: _,
        } = self;
    }
}

impl KeptOctets {
    /// No octets.
    pub fn new(alloc: Global) -> KeptOctets
        ensures { result.known.history ≡ no_history }
    {
        KeptOctets {
            known: KnownOctets::new(),
            size: 0,
            kept: 0,
            pieces: Vec::new(alloc),
        }
    }

    /// How many there are.
    pub fn size(&self) -> u64
        ensures { result ≡ length (octets_of self.now.known.history) }
    {
        self.size
    }

    /// Whether all that are kept are 0.
    pub fn are_zeros(&self) -> bool
        ensures { result ≡ are_zeros self.now.pieces.items }
    {
        for piece in &self.pieces {
            if nonzeros(piece) != 0 {
                return false;
            }
        }
        true
    }

    /// Gives all that are kept to a scan.
    pub fn scan(&self, scan: &mut FrameScan) {
        for piece in &self.pieces {
            scan.take(piece);
        }
    }

    /// Writes those that are kept between two places of a journal once more, where they are in its file.
    pub fn write_again(&self, file: &File, from: u64, to: u64) -> io::Result<()> {
        let mut start = self.size - self.kept;
        for piece in &self.pieces {
            let end = start.saturating_add(piece.len() as u64);
            let first = from.max(start).min(end) - start;
            let last = to.max(start).min(end) - start;
            if first < last {
                let place = start.saturating_add(first).saturating_add(BLOCK as u64);
                file.write_all_at(&piece[first as usize..last as usize], place)?;
            }
            start = end;
        }
        Ok(())
    }

    /// Joins a piece that was read, as the file is opened, to the end. At an error, which is want of memory, nothing
    /// has changed.
    pub fn join(&mut self, piece: Vec<u8>) -> Result<(), AllocError>
        requires room { length (octets_of self.old.known.history) + vec_len piece < 2 ^ 64 }
        requires opened { self.old.known.history.events ≡ [] }
        ensures ok { OnOk result (self.new.known.history ≡ record {
          base = self.old.known.history.base ++ piece.items;
          events = [];
        }) }
    {
        self.pieces.reserve(1)?;
        self.known.join(&piece);
        let count = piece.len() as u64;
        self.size += count;
        self.kept += count;
        self.pieces.push_reserved(piece);
        Ok(())
    }

    /// Lets go of the pieces that end before this place; what is kept from there on stays.
    pub fn forget(&mut self, before: u64)
        ensures known { self.new.known ≡ self.old.known }
        ensures kept { self.new.size - self.new.kept ≤ max before (self.old.size - self.old.kept) }
    {
        'pieces: while !self.pieces.is_empty() {
            let count = self.pieces[0].len() as u64;
            if before < self.size - (self.kept - count) {
                return;
            }
            self.pieces.remove(0);
            self.kept -= count;
        }
    }

    /// Fills the buffer with the octets from a place on; whether they are still kept. Where they aren't, the buffer
    /// holds anything.
    pub fn read(&self, at: u64, buffer: &mut [u8]) -> bool
        requires { at + length buffer.old ≤ length (octets_of self.now.known.history) }
        ensures octets { IsTrue result → buffer.new ≡ take (length buffer.old)
            (drop at (octets_of self.now.known.history)) }
        ensures kept { self.now.size - self.now.kept ≤ at → IsTrue result }
    {
        let start = self.size - self.kept;
        at >= start && copy_out(&self.pieces, (at - start) as usize, buffer)
    }

    /// Notes octets that were written over those of a place. None are kept then.
    pub fn write_over(&mut self, at: u64, octets: &[u8])
        requires { at + length octets.now ≤ length (octets_of self.old.known.history) }
        ensures { self.new.known.history ≡ record self.old.known.history {
          events = write at octets.now
              true ∷ self.old.known.history.events;
        } }
    {
        self.pieces.clear();
        self.kept = 0;
        self.known.write_over(at, octets);
    }

    /// Notes a write that was done in part or not at all.
    pub fn cut_write(&mut self, at: u64, octets: &[u8])
        requires { at + length octets.now ≤ length (octets_of self.old.known.history) }
        ensures { self.new.known.history ≡ record self.old.known.history {
          events = write at octets.now
              false ∷ self.old.known.history.events;
        } }
    {
        self.known.cut_write(at, octets);
    }

    /// Notes a growth that was done in part or not at all.
    pub fn cut_growth(&mut self, zeros: u64)
        ensures { self.new.known.history ≡ record self.old.known.history
            { events = grow zeros false ∷ self.old.known.history.events } }
    {
        self.known.cut_growth(zeros);
    }

    /// Notes a sync that succeeded.
    pub fn settle(&mut self)
        ensures { self.new.known.history ≡ record self.old.known.history
            { events = settle ∷ self.old.known.history.events } }
    {
        self.known.settle();
    }

    /// Notes so many zeros that were written behind the end, and synced. None are kept then.
    pub fn lengthen(&mut self, zeros: u64)
        requires { length (octets_of self.old.known.history) + zeros < 2 ^ 64 }
        ensures { self.new.known.history ≡ record self.old.known.history
            { events = grow zeros true ∷ self.old.known.history.events } }
    {
        self.pieces.clear();
        self.known.lengthen(zeros);
        self.size += zeros;
        self.kept = 0;
    }
}
