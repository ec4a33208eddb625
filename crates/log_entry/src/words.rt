//! A client and an entry of a log, as plain data that the directory and the protocol share.
ghost use Rattle.std.specs.Prelude.{◌≡◌, IfOk};

use crate::payload::Payload;
use std::alloc::{AllocError, Global};

/// Who asks. A client is all three numbers together.
#[derive(Clone, Copy, Debug, PartialEq, Eq, PartialOrd, Ord)]
pub struct Client {
    /// 0 for a client that names itself, else the number of the replica that serves it, counted from 1.
    pub home: u8,
    /// Which start of that replica, counted from 1; 0 where `home` is 0.
    pub life: u64,
    /// Its own number there.
    pub number: u64,
}

/// One record of a log: a client's request.
#[derive(Drop)]
pub struct LogEntry<P> {
    pub client: Client,
    /// The client's number for the request; later requests have greater ones.
    pub request_number: u64,
    /// What is asked.
    pub payload: P,
}

impl<P: Payload> LogEntry<P> {
    /// An equal record in memory of its own. Its only error is want of memory.
    pub fn copy(&self, alloc: Global) -> Result<Self, AllocError>
        ensures { IfOk result (λ copied. copied ≡ self.now) }
    {
        let payload = self.payload.copy(alloc)?;
        Ok(LogEntry {
            client: self.client,
            request_number: self.request_number,
            payload,
        })
    }
}
