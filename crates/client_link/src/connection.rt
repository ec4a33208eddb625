//! A client's connection: both ends of its stream.
use ldap_session::SessionEnd;
use std::io::{Read, Write};

/// One client's stream, which lends an end to read from and an end to write to, at once.
pub trait Connection {
    type Reader: Read + Send;

    type Writer: Write + Send;

    /// Both ends. A connection is asked for them once, as its session begins.
    fn ends(&mut self) -> (&mut Self::Reader, &mut Self::Writer);

    /// Is told, once, how the session of this number ended, which was its own.
    fn ended(&mut self, _session: u64, _end: SessionEnd) {}
}
