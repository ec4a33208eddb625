// The client of an update: who asks for it.
ghost use Rattle.std.specs.Prelude.{◌≡◌};
ghost use Rattle.directory_api.specs.Clients.{named_client as client_named, session_client as client_of_session};

use ldap_op::Client;

/// The client that a request names.
pub fn named_client(number: u64) -> Client
    ensures { result ≡ client_named number }
{
    Client {
        home: 0,
        life: 0,
        number,
    }
}

/// A session's own client: the index of its replica, counted from 0, which start of it that is, and the session's
/// number there.
pub fn session_client(replica: u8, restarts: u64, session: u64) -> Client
    ensures { result ≡ client_of_session replica restarts session }
{
    Client {
        home: replica.saturating_add(1),
        life: restarts,
        number: session,
    }
}
