//! What a server says of the connections of other replicas, a line an event.
use peer_messages::{Claim, Forgotten, Reporter, Term, text_of_forgotten};
use std::alloc::Global;
use std::net::SocketAddr;
use std::sync::Wait;

/// A peer was heard on its connection, from this address, for the first time.
pub fn tell_peer_connected<R: Wait>(
    rt: &R,
    alloc: Global,
    reporter: &Reporter,
    sender: u64,
    address: SocketAddr,
) {
    reporter.say(
        rt,
        format!(in alloc; "replica {sender} connected from {address}"),
    );
}

/// A peer is heard on another connection, from this address, while its last one is open.
pub fn tell_peer_connected_again<R: Wait>(
    rt: &R,
    alloc: Global,
    reporter: &Reporter,
    sender: u64,
    address: SocketAddr,
) {
    reporter.say(
        rt,
        format!(in alloc;
            "replica {sender} connected again from {address}, its last connection still open: if this is logged often, two replicas have its --id"
        ),
    );
}

/// What a replica has otherwise that must be alike, with the word that tells it.
fn term_named(term: Term) -> &'static str {
    match term {
        Term::Schema => "its schema is another (--schema)",
        Term::Suffix => "its suffix is another (--suffix)",
        Term::Clients => "its clients' addresses are others, or in another order (PEER)",
    }
}

/// A peer that isn't heard, since it was started with something else that must be alike.
pub fn tell_peer_refused<R: Wait>(
    rt: &R,
    alloc: Global,
    reporter: &Reporter,
    sender: u64,
    term: Term,
) {
    let why = term_named(term);
    reporter.say(rt, format!(in alloc; "replica {sender} is refused: {why}"));
}

/// A start of a peer that isn't heard, since it remembers less than the peer said.
pub fn tell_forgetful<R: Wait>(
    rt: &R,
    alloc: Global,
    reporter: &Reporter,
    sender: u64,
    claim: &Claim,
    forgotten: Forgotten,
) {
    let line = match text_of_forgotten(alloc, claim, forgotten) {
        Ok(text) => format!(in alloc;
            "start {} of replica {sender} is refused: its files are older than what it said: {text}",
            claim.start
        ),
        Err(error) => Err(error),
    };
    reporter.say(rt, line);
}

/// A connection of a peer, from this address, ended.
pub fn tell_peer_disconnected<R: Wait>(
    rt: &R,
    alloc: Global,
    reporter: &Reporter,
    sender: u64,
    address: SocketAddr,
    why: &str,
) {
    reporter.say(
        rt,
        format!(in alloc; "replica {sender} at {address} disconnected: {why}"),
    );
}

/// A connection that ended before it showed which replica's it is.
pub fn tell_unverified<R: Wait>(
    rt: &R,
    alloc: Global,
    reporter: &Reporter,
    address: SocketAddr,
    why: &str,
) {
    reporter.say(
        rt,
        format!(in alloc; "unverified peer {address} disconnected: {why}"),
    );
}

/// Parts of a long message of which one is missing.
pub fn tell_parts_lost<R: Wait>(rt: &R, alloc: Global, reporter: &Reporter, sender: u64) {
    reporter.say(
        rt,
        format!(in alloc; "a message of replica {sender} is lost: a part is missing"),
    );
}
