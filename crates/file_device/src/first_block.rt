//! The first block of a journal's file: its head, and zeros to the end of a page, so that no write of the journal's
//! octets is in its place.
ghost use Rattle.std.specs.Prelude.{◌≡◌, ◌≤◌, ◌++◌, length, replicate, IfOk};
ghost use Rattle.file_device.specs.private.Heads.{head_of};

use crate::fault::FileDeviceError;
use crate::file::read_some;
use crate::heads::head_of;
use crate::owner::JournalOwner;
use crate::place::failed;
use std::alloc::{AllocError, Global};
use std::fs::File;
use std::os::unix::fs::FileExt;

/// How many octets the first block has.
pub const BLOCK: usize = 4096;

/// How many of them follow the head.
const REST: usize = 3960;

/// The first octets of a file, as many as a first block has, or all where there are fewer. What follows them is read
/// next.
pub fn read_front(alloc: Global, file: &mut File) -> Result<Vec<u8>, FileDeviceError>
    ensures { IfOk result (λ front. length front.items ≤ 4096) }
{
    let mut front = Vec::new(alloc);
    let mut piece = [0u8; BLOCK];
    for _ in 0..u64::MAX {
        let left = BLOCK - front.len();
        if left == 0 {
            return Ok(front);
        }
        let Some(count) = read_some(file, &mut piece[..left])? else {
            return Ok(front);
        };
        front.extend_from_slice(&piece[..count])?;
    }
    Ok(front)
}

/// The first block of a replica's journal. Its only error is want of memory.
fn first_block(alloc: Global, owner: &JournalOwner) -> Result<Vec<u8>, AllocError>
    ensures { IfOk result (λ block. block.items ≡ head_of owner.now ++ replicate 3960 0) }
{
    let mut block = head_of(alloc, owner)?;
    block.extend_from_slice(&[0; REST])?;
    Ok(block)
}

/// Writes the first block of a replica's journal.
pub fn write_first_block(
    alloc: Global,
    file: &File,
    owner: &JournalOwner,
) -> Result<(), FileDeviceError> {
    let block = first_block(alloc, owner)?;
    file.write_all_at(&block, 0).map_err(failed)
}
