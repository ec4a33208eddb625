//! Writes a journal of version 1, which has no first block, anew with one: in a file beside it, which takes its name
//! once it is synced.
use crate::fault::FileDeviceError;
use crate::file::PIECE;
use crate::first_block::{BLOCK, read_front, write_first_block};
use crate::judging::{Holding, judge};
use crate::owner::JournalOwner;
use crate::place::{failed, open_locked, sync_folder};
use std::alloc::Global;
use std::fs::{File, Files};
use std::io::{self, ErrorKind, Seek, SeekFrom};
use std::os::unix::fs::FileExt;

/// Copies one piece from a place on to as far behind it as the first block is long; how many octets. None at the end.
fn copy_piece(from: &File, to: &File, at: u64) -> io::Result<usize> {
    let mut piece = [0u8; PIECE];
    let count = from.read_at(&mut piece, at)?;
    to.write_all_at(&piece[..count], at.saturating_add(BLOCK as u64))?;
    Ok(count)
}

/// Copies all octets of a file behind where the first block of another one is.
fn copy_all(from: &File, to: &File) -> io::Result<()> {
    let mut at = 0u64;
    for _ in 0..u64::MAX {
        match copy_piece(from, to, at) {
            Ok(0) => return Ok(()),
            Ok(count) => at = at.saturating_add(count as u64),
            Err(error) => {
                if error.kind() != ErrorKind::Interrupted {
                    return Err(error);
                }
            }
        }
    }
    Ok(())
}

/// An empty file beside a journal. One that is there is taken only where an earlier try left it.
fn open_aside<R: Files<File = File>>(
    rt: &R,
    alloc: Global,
    path: &str,
    owner: &JournalOwner,
) -> Result<File, FileDeviceError> {
    let mut file = open_locked(rt, path, true)?;
    let front = read_front(alloc, &mut file)?;
    match judge(alloc, &front, owner)? {
        Holding::Own | Holding::Nothing => {}
        Holding::Earlier => return Err(FileDeviceError::HoldsJournal),
    }
    file.set_len(0).map_err(failed)?;
    Ok(file)
}

/// Writes the first block, and behind it all octets of a journal of version 1, and syncs them.
fn fill(
    alloc: Global,
    earlier: &File,
    anew: &File,
    owner: &JournalOwner,
) -> Result<(), FileDeviceError> {
    write_first_block(alloc, anew, owner)?;
    copy_all(earlier, anew).map_err(failed)?;
    anew.sync_all().map_err(failed)
}

/// A journal of version 1, of this name, written anew with a first block. A crash leaves it as it was, or as it is
/// written anew; so does an error. The file that was written anew is read from its beginning next.
pub fn migrated<R: Files<File = File>>(
    rt: &R,
    alloc: Global,
    path: &str,
    earlier: &File,
    owner: &JournalOwner,
) -> Result<File, FileDeviceError> {
    // Where the name is a link, the file that it leads to is written anew, and not the link.
    let real = rt.canonicalize(alloc, path).map_err(failed)?;
    let path = real.as_str();
    let aside = format!(in alloc; "{path}.with-head")?;
    let anew = open_aside(rt, alloc, aside.as_str(), owner)?;
    match fill(alloc, earlier, &anew, owner) {
        Ok(()) => {}
        Err(error) => {
            let _ = rt.remove_file(aside.as_str());
            return Err(error);
        }
    }
    rt.rename(aside.as_str(), path).map_err(failed)?;
    sync_folder(rt, path).map_err(failed)?;
    reread(anew)
}

/// The file, to be read from its beginning.
fn reread(file: File) -> Result<File, FileDeviceError> {
    let mut file = file;
    file.seek(SeekFrom::Start(0)).map_err(failed)?;
    Ok(file)
}
