//! What a server says of what it sends to other replicas, a line an event.
use peer_link::{Address, Claim, Forgotten, WireError};
use server_monitor::Reporter;
use std::alloc::{AllocError, Global};
use std::io::ErrorKind;
use std::sync::Wait;

/// A peer that answers nothing any more on a connection to it.
pub fn tell_silent<R: Wait>(rt: &R, alloc: Global, reporter: &Reporter, to: usize) {
    reporter.say(
        rt,
        format!(in alloc; "replica {to} answers nothing: its connection is closed, and made again"),
    );
}

/// What a start doesn't remember, beside what it does.
pub fn text_of_forgotten(
    alloc: Global,
    claim: &Claim,
    forgotten: Forgotten,
) -> Result<String, AllocError> {
    match forgotten {
        Forgotten::Start { said } => {
            format!(in alloc;
                "start {said} has greeted, and this is start {}",
                claim.start
            )
        }
        Forgotten::View { said } => {
            format!(in alloc;
                "it said it was in view {said}, and they hold view {}",
                claim.view
            )
        }
        Forgotten::Log { said } => format!(in alloc;
            "it said it had {} records in view {}, and they hold {} of view {}",
            said.length, said.last_normal, claim.length, claim.last_normal
        ),
    }
}

/// A peer refuses this start, since it remembers less than this replica said.
pub fn tell_refused_by<R: Wait>(
    rt: &R,
    alloc: Global,
    reporter: &Reporter,
    by: usize,
    claim: &Claim,
    forgotten: Forgotten,
) {
    let line = match text_of_forgotten(alloc, claim, forgotten) {
        Ok(text) => format!(in alloc;
            "replica {by} refuses start {} of this replica: its files are older than what it said: {text}",
            claim.start
        ),
        Err(error) => Err(error),
    };
    reporter.say(rt, line);
}

/// A peer that can't be reached, and why, as the system says.
pub fn tell_unreached<R: Wait>(
    rt: &R,
    alloc: Global,
    reporter: &Reporter,
    to: usize,
    address: Address<'_>,
    cause: Option<ErrorKind>,
) {
    let line = match cause {
        Some(cause) => { format!(in alloc; "replica {to} can't be reached at {address}: {cause}") }
        None => format!(in alloc;
            "replica {to} can't be reached at {address}: its name isn't known"
        ),
    };
    reporter.say(rt, line);
}

/// A peer that is reached again, or for the first time.
pub fn tell_reached<R: Wait>(
    rt: &R,
    alloc: Global,
    reporter: &Reporter,
    to: usize,
    address: Address<'_>,
) {
    reporter.say(
        rt,
        format!(in alloc; "replica {to} is reached at {address}"),
    );
}

/// A message that couldn't be made a frame of.
pub fn tell_lost<R: Wait>(rt: &R, alloc: Global, reporter: &Reporter, to: usize, error: WireError) {
    let why = match error {
        WireError::NoMemory => "out of memory",
        WireError::BadFrame | WireError::ForeignFrame => "it is too long for a frame",
    };
    reporter.say(
        rt,
        format!(in alloc; "a message to replica {to} is lost: {why}"),
    );
}
