//! How many descriptors the system lets a process have.
use libc::types::rlimit;
use libc::{RLIMIT_NOFILE, getrlimit};

/// How many descriptors are left to whatever isn't a client: files, listeners, links.
const OTHERS: u64 = 64;

/// How many sessions the system's limit of descriptors lets in; none, where the limit isn't known.
pub fn descriptors() -> Option<u64> {
    let mut limit = rlimit {
        rlim_cur: 0,
        rlim_max: 0,
    };
    if getrlimit(RLIMIT_NOFILE, &mut limit) != 0 {
        return None;
    }
    Some(limit.rlim_cur.saturating_sub(OTHERS))
}
