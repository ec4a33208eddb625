//! What a server says of its sessions and of its end, a line an event.
use crate::fault::ServerError;
use logged_directory::one_line;
use server_monitor::Reporter;
use session_pool::{Away, SessionEnd};
use std::alloc::{AllocError, Global};
use std::net::SocketAddr;
use std::sync::Wait;

/// Why a session ended, where it ended badly.
fn fault_of(end: SessionEnd) -> Option<&'static str> {
    match end {
        SessionEnd::Unbound | SessionEnd::EndOfInput => None,
        SessionEnd::Truncated => Some("its stream ended inside a message"),
        SessionEnd::Disconnected => Some("it sent what is no request"),
        SessionEnd::ReadFailed => Some("its stream failed, or it was silent for too long"),
        SessionEnd::WriteFailed => Some("its answers couldn't be written"),
        SessionEnd::NoMemory => Some("out of memory"),
    }
}

/// A session that begins, where sessions are logged.
pub fn tell_begin<R: Wait>(
    rt: &R,
    alloc: Global,
    reporter: &Reporter,
    session: u64,
    address: SocketAddr,
) {
    reporter.say(
        rt,
        format!(in alloc; "session {session} began: client {address}"),
    );
}

/// How a session ended, where sessions are logged.
pub fn tell_end<R: Wait>(
    rt: &R,
    alloc: Global,
    reporter: &Reporter,
    session: u64,
    address: SocketAddr,
    end: SessionEnd,
) {
    let why = match end {
        SessionEnd::Unbound => "unbind",
        SessionEnd::EndOfInput => "its client closed the connection",
        _ => fault_of(end).unwrap_or("it closed"),
    };
    reporter.say(
        rt,
        format!(in alloc; "session {session} ended: {why}: client {address}"),
    );
}

/// A session that ended badly.
pub fn tell_session<R: Wait>(
    rt: &R,
    alloc: Global,
    reporter: &Reporter,
    session: u64,
    end: SessionEnd,
) {
    if let Some(why) = fault_of(end) {
        reporter.say(rt, format!(in alloc; "session {session} ended: {why}"));
    }
}

/// A bind that was refused, in words.
fn text_of_refused(
    alloc: Global,
    session: u64,
    name: Result<&str, AllocError>,
    code: u8,
) -> Result<String, AllocError> {
    let name = one_line(alloc, name?)?;
    if name.is_empty() {
        return format!(in alloc; "session {session}: bind refused ({code})");
    }
    format!(in alloc; "session {session}: bind as {name} refused ({code})")
}

/// A bind that was refused.
pub fn tell_refused<R: Wait>(
    rt: &R,
    alloc: Global,
    reporter: &Reporter,
    session: u64,
    name: Result<&str, AllocError>,
    code: u8,
) {
    reporter.say(rt, text_of_refused(alloc, session, name, code));
}

/// A session that was let go.
pub fn tell_let_go<R: Wait>(
    rt: &R,
    alloc: Global,
    reporter: &Reporter,
    session: u64,
    address: Option<SocketAddr>,
    why: Away,
) {
    let why = match why {
        Away::Longest => "it was silent for longest, and no further session had room",
        Away::Full => "there is no room for it, and no session is silent",
        Away::NoDescriptor => "it was silent for longest, and the system has no descriptor left",
    };
    let line = match address {
        Some(address) => format!(in alloc; "session {session} let go: {why}: client {address}"),
        None => format!(in alloc; "session {session} let go: {why}"),
    };
    reporter.say(rt, line);
}

/// How many sessions the system lets in, where that is fewer than were asked for.
pub fn tell_room<R: Wait>(rt: &R, alloc: Global, reporter: &Reporter, sessions: usize) {
    reporter.say(
        rt,
        format!(in alloc;
            "room for {sessions} sessions: the system's limit of descriptors lets in no more"
        ),
    );
}

/// The first line of a text.
fn first_line(text: &str) -> &str {
    match text.split_once('\n') {
        Some((first, _)) => first,
        None => text,
    }
}

/// Why the server ends: the first line of what is said of it at the end, with the time.
pub fn tell_fault<R: Wait>(rt: &R, alloc: Global, reporter: &Reporter, fault: &ServerError) {
    let line = match format!(in alloc; "{fault}") {
        Ok(text) => {
            let first = first_line(&text);
            format!(in alloc; "this replica ends: {first}")
        }
        Err(error) => Err(error),
    };
    reporter.say(rt, line);
}
