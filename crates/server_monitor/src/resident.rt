//! How much memory the process has, and the machine, as the system tells it in files (proc(5), cgroups(7)), which are
//! opened by who has the files.
use std::fs::File;
use std::os::unix::fs::FileExt;

/// How many octets of the file are read that tells what the system knows of the process: its lines on memory are among
/// the first 2,000.
const OCTETS: usize = 4_096;

/// What begins the line of the memory that the process has, in kilobytes of 1,024 octets.
const HEADING: &[u8] = b"VmRSS:";

/// The file that tells the machine's memory, and what begins its line, in the same unit.
pub const MACHINE_MEMORY: &str = "/proc/meminfo";

const TOTAL: &[u8] = b"MemTotal:";

/// The file of the memory that the processes of this control group may have together, as a container sees its own:
/// octets, or `max`.
pub const GROUP_MEMORY: &str = "/sys/fs/cgroup/memory.max";

/// A number further on in decimal digits, by one octet; none, where the octet is no digit.
fn with_digit(number: u64, octet: u8) -> Option<u64> {
    let digit = char::from(octet).to_digit(10)?;
    Some(number.saturating_mul(10).saturating_add(u64::from(digit)))
}

/// The number of the digits at the front of octets, behind white space.
fn number_in(octets: &[u8]) -> u64 {
    let mut number = 0;
    for octet in octets.trim_ascii_start() {
        match with_digit(number, *octet) {
            Some(further) => number = further,
            None => break,
        }
    }
    number
}

/// What is behind a heading, where a line begins with it.
fn behind_heading<'a>(line: &'a [u8], heading: &[u8]) -> Option<&'a [u8]> {
    match line.split_at_checked(heading.len()) {
        Some((front, rest)) if front == heading => Some(rest),
        _ => None,
    }
}

/// The octets of memory that a text tells behind a heading.
fn octets_in(text: &[u8], heading: &[u8]) -> Option<u64> {
    for line in text.split(|octet| *octet == b'\n') {
        if let Some(rest) = behind_heading(line, heading) {
            return Some(number_in(rest).saturating_mul(1_024));
        }
    }
    None
}

/// How many octets of memory the process has, where this file tells it.
pub fn resident_octets(status: Option<&File>) -> Option<u64> {
    let mut room = [0u8; OCTETS];
    let count = status?.read_at(&mut room, 0).ok()?;
    octets_in(room.get(..count)?, HEADING)
}

/// The number that a text is; none, where it begins with no digit.
pub fn number_of(text: &[u8]) -> Option<u64> {
    let first = text.first()?;
    let _ = with_digit(0, *first)?;
    Some(number_in(text))
}

/// How many octets of memory the processes of this control group may have, where this file tells it.
fn group_octets(group: Option<&File>) -> Option<u64> {
    let mut room = [0u8; OCTETS];
    let count = group?.read_at(&mut room, 0).ok()?;
    number_of(room.get(..count)?)
}

/// How many octets of memory the machine has, where this file tells it.
fn total_octets(machine: Option<&File>) -> Option<u64> {
    let mut room = [0u8; OCTETS];
    let count = machine?.read_at(&mut room, 0).ok()?;
    octets_in(room.get(..count)?, TOTAL)
}

/// How many octets of memory a process may have at most, by these files: the machine's, or fewer that its control group
/// may.
pub fn available_octets(machine: Option<&File>, group: Option<&File>) -> Option<u64> {
    match (total_octets(machine), group_octets(group)) {
        (Some(total), Some(group)) => Some(total.min(group)),
        (total, group) => total.or(group),
    }
}
