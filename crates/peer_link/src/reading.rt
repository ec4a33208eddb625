//! Frames of a stream: four octets that say how many follow, and those.
ghost use Rattle.std.specs.Prelude.{◌<◌, ◌≤◌, length, IfOk, OnOk, IsErrOf};
ghost use Rattle.std.specs.Io.KnownBytes.{Consumes};
ghost use Rattle.peer_link.specs.Reading.{HasRead, IsEnded};
ghost use Rattle.peer_link.specs.private.Reading.{IsFrontRead};
ghost use Rattle.peer_link.specs.declared.reading.FrameEnd.TheVariants.{Closed};

use std::alloc::Global;
use std::io::{ErrorKind, Read};

/// Why there is no frame.
#[derive(Clone, Copy, Debug, PartialEq, Eq)]
pub enum FrameEnd {
    /// The stream ended between two frames.
    Closed,
    /// It ended inside a frame.
    Cut,
    /// A read failed.
    Failed,
    NoMemory,
}

/// At most so many octets get room at once, or as many as have come, so that memory grows with what came and not with
/// what was announced.
const PIECE: usize = 8_192;

/// Reads at least one octet, where there is one; how many.
fn read_some<R: Read>(reader: &mut R, buffer: &mut [u8]) -> Result<usize, FrameEnd>
    requires room { 0 < length buffer.old }
    ensures some { IfOk result (λ count. IsFrontRead (R.remaining reader.old) (R.remaining reader.new) buffer.new
        count) }
    ensures closed { IsErrOf result Closed → IsEnded (R.remaining reader.old) (R.remaining reader.new) }
{
    for _ in 0..u64::MAX {
        match reader.read(buffer) {
            Ok(0) => return Err(FrameEnd::Closed),
            Ok(count) => return Ok(count),
            Err(error) => {
                if error.kind() != ErrorKind::Interrupted {
                    return Err(FrameEnd::Failed);
                }
            }
        }
    }
    Err(FrameEnd::Failed)
}

/// Reads so many octets, from a place in the buffer to its end.
fn read_on<R: Read>(reader: &mut R, buffer: &mut [u8]) -> Result<(), FrameEnd>
    ensures read { OnOk result (Consumes (R.remaining reader.old) (R.remaining reader.new) buffer.new) }
    ensures open { IsErrOf result Closed → ⊥ }
{
    match reader.read_exact(buffer) {
        Ok(()) => Ok(()),
        Err(error) => {
            if error.kind() == ErrorKind::UnexpectedEof {
                Err(FrameEnd::Cut)
            } else {
                Err(FrameEnd::Failed)
            }
        }
    }
}

/// Reads the four octets that a frame begins with.
pub fn read_head<R: Read>(reader: &mut R) -> Result<[u8; 4], FrameEnd>
    ensures read { IfOk result (λ head. Consumes (R.remaining reader.old) (R.remaining reader.new) head) }
    ensures closed { IsErrOf result Closed → IsEnded (R.remaining reader.old) (R.remaining reader.new) }
{
    let mut head = [0u8; 4];
    let got = read_some(reader, &mut head)?;
    read_on(reader, &mut head[got..])?;
    Ok(head)
}

/// Reads so many octets more of a frame.
fn read_piece<R: Read>(reader: &mut R, frame: &mut Vec<u8>, count: usize) -> Result<(), FrameEnd>
    requires { count ≤ 4294967295 }
    ensures read { OnOk result (HasRead (R.remaining reader.old) (R.remaining reader.new) frame.old.items
        frame.new.items count) }
    ensures open { IsErrOf result Closed → ⊥ }
{
    let at = frame.len();
    if frame.resize(at + count, 0).is_err() {
        return Err(FrameEnd::NoMemory);
    }
    read_on(reader, &mut frame[at..])
}

/// Reads so many octets more of a frame. It takes no more room at once than for as many octets as have come, or 8,192.
pub fn read_more<R: Read>(reader: &mut R, frame: &mut Vec<u8>, count: u32) -> Result<(), FrameEnd>
    ensures read { OnOk result (HasRead (R.remaining reader.old) (R.remaining reader.new) frame.old.items
        frame.new.items count) }
    ensures open { IsErrOf result Closed → ⊥ }
{
    let mut left = count as usize;
    while left > 0 {
        let piece = left.min(frame.len().max(PIECE));
        read_piece(reader, frame, piece)?;
        left -= piece;
    }
    Ok(())
}

/// Reads the rest of a frame, so many octets behind its head: the whole frame, its head too.
pub fn read_rest<R: Read>(
    alloc: Global,
    reader: &mut R,
    head: [u8; 4],
    count: u32,
) -> Result<Vec<u8>, FrameEnd>
    ensures read { IfOk result (λ frame. HasRead (R.remaining reader.old) (R.remaining reader.new) head frame.items
        count) }
    ensures open { IsErrOf result Closed → ⊥ }
{
    let Ok(mut frame) = Vec::from_array(alloc, head) else {
        return Err(FrameEnd::NoMemory);
    };
    read_more(reader, &mut frame, count)?;
    Ok(frame)
}
