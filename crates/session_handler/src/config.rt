//! What all sessions of a server share.
ghost use Rattle.std.specs.Prelude.{◌≡◌};
ghost use Rattle.session_handler.specs.View.{config_view};

use directory_api::{Client, session_client};
use request_checks::{Name, Schema};

/// What all sessions of a server share, and which of them a session is.
#[derive(Clone, Copy)]
pub struct Config<'a> {
    pub schema: &'a Schema,
    /// The manager's name.
    pub manager: &'a Name,
    /// The manager's password, octet for octet.
    pub password: &'a [u8],
    /// The index of the replica that serves the session, counted from 0.
    pub replica: u8,
    /// Which start of that replica it is.
    pub restarts: u64,
    /// The session's number at that start.
    pub session: u64,
}

impl<'a> Config<'a> {
    /// The session's own client.
    pub fn client(&self) -> Client
        ensures { result ≡ (config_view self.now).client }
    {
        session_client(self.replica, self.restarts, self.session)
    }
}
