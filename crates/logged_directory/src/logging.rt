//! What is logged of updates and of slow searches, a line an event.
use directory_api::{Client, Ended, SearchRequest, Update};
use filter_text::print_text;
use server_monitor::Reporter;
use std::alloc::{AllocError, Global};
use std::sync::Wait;
use text_faults::{code_word, one_line};

/// An update of this kind, of the entry of this name.
fn update_text(alloc: Global, kind: &str, name: &str) -> Result<String, AllocError> {
    let name = one_line(alloc, name)?;
    format!(in alloc; "{kind} {name}")
}

/// An update's kind and the name of its entry; never a value of an attribute, which may be a password.
pub fn text_of_update(alloc: Global, update: &Update) -> Result<String, AllocError> {
    match update {
        Update::Add(add) => update_text(alloc, "add", add.entry.as_str()),
        Update::Delete(name) => update_text(alloc, "delete", name.as_str()),
        Update::Modify(modify) => update_text(alloc, "modify", modify.object.as_str()),
        Update::ModifyDn(rename) => update_text(alloc, "modifyDN", rename.entry.as_str()),
        Update::Noop => String::from_str(alloc, "noop"),
    }
}

/// Who asks for an update: a session of this replica, or a client that numbers its requests itself.
fn client_text(alloc: Global, client: Client) -> Result<String, AllocError> {
    let number = client.number;
    match client.home {
        0 => format!(in alloc; "client {number}"),
        _ => format!(in alloc; "session {number}"),
    }
}

/// What a result code says.
fn word_of(code: u32) -> &'static str {
    match code {
        0 => "success",
        _ => code_word(code),
    }
}

/// How an update ended that this client asked for.
fn ended_text(
    alloc: Global,
    client: Client,
    text: &str,
    ended: &Ended,
) -> Result<String, AllocError> {
    let who = client_text(alloc, client)?;
    match ended {
        Ended::Done { number, reply } => {
            let code = reply.code.number();
            let word = word_of(code);
            format!(in alloc; "update {number}: {who}: code {code}, {word}: {text}")
        }
        Ended::Stale => {
            format!(in alloc;
                "update refused: {who}: code 53, the client has made a later request: {text}"
            )
        }
        Ended::Lost => {
            format!(in alloc; "update lost: {who}: code 80, it may have been made: {text}")
        }
        Ended::NoMemory => format!(in alloc;
            "update refused: {who}: code 80, out of memory: {text}"
        ),
    }
}

/// How an update ended.
pub fn tell_update<R: Wait>(
    rt: &R,
    alloc: Global,
    reporter: &Reporter,
    client: Client,
    text: Result<String, AllocError>,
    ended: &Ended,
) {
    let line = match text {
        Ok(text) => ended_text(alloc, client, text.as_str(), ended),
        Err(error) => Err(error),
    };
    reporter.say(rt, line);
}

/// The filter of a search as it is logged.
fn filter_of(alloc: Global, request: &SearchRequest) -> Result<String, AllocError> {
    match print_text(alloc, &request.filter) {
        Ok(filter) => one_line(alloc, filter.as_str()),
        Err(_) => String::from_str(alloc, "a filter without a text"),
    }
}

/// A search that evaluated its filter on so many entries.
fn slow_text(alloc: Global, request: &SearchRequest, tests: u64) -> Result<String, AllocError> {
    let filter = filter_of(alloc, request)?;
    let base = one_line(alloc, request.base.as_str())?;
    format!(in alloc; "slow search: {tests} entries evaluated: {filter}: base {base}")
}

/// A search that evaluated its filter on so many entries, for want of an index.
pub fn tell_slow<R: Wait>(
    rt: &R,
    alloc: Global,
    reporter: &Reporter,
    request: &SearchRequest,
    tests: u64,
) {
    reporter.say(rt, slow_text(alloc, request, tests));
}
