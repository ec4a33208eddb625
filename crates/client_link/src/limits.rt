//! How patient a server is with a client: its limits.
use std::time::Duration;

/// Within how many seconds a message has to be whole, where nothing else is said.
const MESSAGE: u64 = 10;

/// After how many seconds without a message a client gives up its place to one that waits, where nothing else is said.
const IDLE: u64 = 60;

/// How long a read waits at most before the door and the clock are looked at, in milliseconds.
const TURN: u64 = 200;

/// After how many seconds a client that lets an answer wait is sent off, where nothing else is said.
const WRITE: u64 = 20;

/// How long a server waits for a client, before it closes the connection.
#[derive(Clone, Copy, Debug)]
pub struct Limits {
    /// For a client's message, from its first octet on; for the next octet inside of another replica's.
    pub message: Duration,
    /// For the next whole message of another replica, where another connection waits for its place.
    pub idle: Duration,
    /// For the client to take an answer: in all, and as long again for each MiB that it has taken of it.
    pub write: Duration,
}

impl Limits {
    /// 10 seconds for a message, 60 seconds where others wait, 20 seconds for a write.
    pub fn usual() -> Limits {
        Limits {
            message: Duration::from_secs(MESSAGE),
            idle: Duration::from_secs(IDLE),
            write: Duration::from_secs(WRITE),
        }
    }

    /// How often whoever waits for a client looks at the clock: every 200 milliseconds, or as often as the limits want
    /// it.
    pub fn turn(&self) -> Duration {
        let least = self.message.min(self.idle).max(Duration::from_millis(1));
        Duration::from_millis(TURN).min(least)
    }
}
