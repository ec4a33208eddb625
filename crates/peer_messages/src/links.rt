//! Which replicas are heard on how many connections, and why one isn't: so that each change is told, and told once; and
//! what each has said, so that a start of it that remembers less isn't heard.
use crate::link_table::{Forgetful, LinkTable};
use peer_link::{Claim, Op, PeerMessage, Term};
use server_monitor::Labelled;
use std::alloc::{AllocError, Global};
use std::sync::{Mutex, Wait};

/// What is known of each replica, by index.
#[derive(Drop)]
pub struct Links {
    links: Mutex<LinkTable>,
}

impl Links {
    /// None of so many replicas was heard yet.
    pub fn new(alloc: Global, count: usize) -> Result<Links, AllocError> {
        let links = LinkTable::new(alloc, count)?;
        Ok(Links {
            links: Mutex::new(links),
        })
    }

    /// A replica is heard on a connection more; whether it was heard on another one already.
    pub fn come<R: Wait>(&self, rt: &R, sender: u64) -> bool {
        self.links.lock(rt).come(sender)
    }

    /// A connection on which it was heard has ended.
    pub fn go<R: Wait>(&self, rt: &R, sender: u64) {
        self.links.lock(rt).go(sender);
    }

    /// Whether each replica but the one of this index is heard: 1 or 0.
    pub fn connected<R: Wait>(
        &self,
        rt: &R,
        alloc: Global,
        own: usize,
    ) -> Result<Vec<Labelled>, AllocError> {
        self.links.lock(rt).connected(alloc, own)
    }

    /// A replica is refused for this term; whether that is news.
    pub fn refuse<R: Wait>(&self, rt: &R, sender: u64, term: Term) -> bool {
        self.links.lock(rt).refuse(sender, term)
    }

    /// Takes note of a start that greets, unless it remembers less than its replica said.
    pub fn greet<R: Wait>(&self, rt: &R, sender: u64, claim: Claim) -> Option<Forgetful> {
        self.links.lock(rt).greet(sender, claim)
    }

    /// Takes note of whether a replica greets as version 0.2.0 does.
    pub fn note_version<R: Wait>(&self, rt: &R, sender: u64, is_earlier: bool) {
        self.links.lock(rt).note_version(sender, is_earlier);
    }

    /// Whether a replica greeted as version 0.2.0 does, last: it wants to be greeted so.
    pub fn is_earlier<R: Wait>(&self, rt: &R, index: usize) -> bool {
        self.links.lock(rt).is_earlier(index)
    }

    /// Takes note of what a message of a replica says.
    pub fn hear<R: Wait>(&self, rt: &R, sender: u64, message: &PeerMessage<Op>) {
        self.links.lock(rt).hear(sender, message);
    }
}
