//! Spells short messages in a thread that has posted one, and outside every lock.
use crate::parts::PeerParts;
use crate::telling::tell_lost;
use peer_link::{Cluster, FrameSizes, Frames, Op, PeerMessage, Spell, WireError};
use std::alloc::Global;
use std::sync::Wait;

/// A short message is one frame, of fewer octets than these.
const FRAME: usize = 65_536;

/// Spells short messages to the replica of this index.
#[derive(Drop)]
pub struct ShortFrames<'a, R> {
    pub rt: &'a R,
    pub alloc: Global,
    pub parts: PeerParts<'a>,
    pub cluster: Cluster,
    pub to: usize,
}

impl<'a, R: Wait> ShortFrames<'a, R> {
    /// Puts the frame of a message behind these octets.
    fn put(&self, message: &PeerMessage<Op>, octets: &mut Vec<u8>) -> Result<(), WireError> {
        let (alloc, cluster, sender) = (self.alloc, self.cluster, self.parts.sender);
        let sizes = FrameSizes {
            most: FRAME,
            part_size: FRAME,
        };
        let mut frames = Frames::of(alloc, cluster, sender, 0, sizes, message)?;
        if let Some(frame) = frames.next(alloc)? {
            self.parts.counters.send_octets(self.to as u64, frame.len());
            if octets.is_empty() {
                *octets = frame;
            } else {
                octets.extend_from_slice(frame.as_slice())?;
            }
        }
        Ok(())
    }
}

impl<'a, R: Wait> Spell<PeerMessage<Op>> for ShortFrames<'a, R> {
    fn spell(&mut self, message: PeerMessage<Op>, octets: &mut Vec<u8>) {
        self.parts.counters.send(self.to as u64);
        if let Err(error) = self.put(&message, octets) {
            tell_lost(self.rt, self.alloc, self.parts.reporter, self.to, error);
        }
    }
}
