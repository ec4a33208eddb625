//! Reads a file whole, in pieces.
ghost use Rattle.std.specs.Prelude.{◌≡◌, ◌≤◌, [], IfOk, IfSome, length, vec_len};
ghost use Rattle.file_device.specs.History.{octets_of};

use crate::fault::FileDeviceError;
use crate::file::read_some;
use crate::kept_octets::KeptOctets;
use std::alloc::Global;
use std::fs::File;

/// How many octets are read at once, at most. They stay together in memory until all of them are forgotten.
const PIECE: usize = 0x10_0000;

/// The next octets of a file, so many at most; none at its end.
fn read_piece(
    alloc: Global,
    file: &mut File,
    most: usize,
) -> Result<Option<Vec<u8>>, FileDeviceError>
    ensures { IfOk result (λ got. IfSome got (λ piece. vec_len piece ≤ most)) }
{
    let Ok(mut piece) = vec![in alloc; 0u8; most] else {
        return Err(FileDeviceError::NoMemory);
    };
    let Some(count) = read_some(file, &mut piece)? else {
        return Ok(None);
    };
    piece.truncate(count);
    if count < most {
        piece.shrink_to_fit();
    }
    Ok(Some(piece))
}

/// Reads all octets of a file, so many at most.
pub fn read_octets(alloc: Global, file: &mut File, most: u64) -> Result<KeptOctets, FileDeviceError>
    ensures { IfOk result (λ octets. (length (octets_of octets.known.history) ≤ most)
        × (octets.known.history.events ≡ [])) }
{
    let mut octets = KeptOctets::new(alloc);
    for _ in 0..u64::MAX {
        let Some(piece) = read_piece(alloc, file, PIECE)? else {
            return Ok(octets);
        };
        if piece.len() as u64 > most - octets.size() {
            return Err(FileDeviceError::TooLong);
        }
        if octets.join(piece).is_err() {
            return Err(FileDeviceError::NoMemory);
        }
    }
    Err(FileDeviceError::TooLong)
}
