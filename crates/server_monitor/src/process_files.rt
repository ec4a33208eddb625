//! What the system tells of the process in files (proc(5)), and when it began.
use crate::resident::{number_of, resident_octets};
use libc::types::rlimit;
use libc::{RLIMIT_NOFILE, getrlimit};
use std::fs::{File, Files};
use std::os::unix::fs::FileExt;
use std::time::Clock;

/// The files.
const STATUS: &str = "/proc/self/status";

const STAT: &str = "/proc/self/stat";

/// How many octets of the second one are read: it has one line of some 400.
const OCTETS: usize = 1_024;

/// Of the words behind the program's name in parentheses, the ones of the time in the program and in the system, in
/// hundredths of a second, are these, from 0.
const USER: usize = 11;

const SYSTEM: usize = 12;

/// The files that tell of the process, where they can be read, and when it began, in seconds since 1970.
#[derive(Drop)]
pub struct ProcessFiles {
    status: Option<File>,
    stat: Option<File>,
    pub began: u64,
}

/// The hundredths of a second that a line of the file tells.
fn hundredths_in(line: &[u8]) -> Option<u64> {
    let mut words = line
        .rsplit(|octet| *octet == b')')
        .next()?
        .trim_ascii_start()
        .split(|octet| *octet == b' ');
    let user = number_of(words.nth(USER)?)?;
    let system = number_of(words.nth(SYSTEM - USER - 1)?)?;
    Some(user.saturating_add(system))
}

/// How many descriptors the system lets the process have.
pub fn descriptor_limit() -> Option<u64> {
    let mut limit = rlimit {
        rlim_cur: 0,
        rlim_max: 0,
    };
    if getrlimit(RLIMIT_NOFILE, &mut limit) != 0 {
        return None;
    }
    Some(limit.rlim_cur)
}

impl ProcessFiles {
    /// No file, of a process that says nothing of itself.
    pub fn none() -> ProcessFiles {
        ProcessFiles {
            status: None,
            stat: None,
            began: 0,
        }
    }

    /// Opens the files, of a process that begins now.
    pub fn open<R: Files<File = File> + Clock>(rt: &R) -> ProcessFiles {
        ProcessFiles {
            status: File::open(rt, STATUS).ok(),
            stat: File::open(rt, STAT).ok(),
            began: match rt.since_1970() {
                Ok(moment) => moment.as_secs(),
                Err(_) => 0,
            },
        }
    }

    /// How many octets of memory the process has.
    pub fn memory(&self) -> Option<u64> {
        resident_octets(self.status.as_ref())
    }

    /// How many hundredths of a second of processors it took.
    pub fn processors(&self) -> Option<u64> {
        let mut room = [0u8; OCTETS];
        let count = self.stat.as_ref()?.read_at(&mut room, 0).ok()?;
        hundredths_in(room.get(..count)?)
    }
}
