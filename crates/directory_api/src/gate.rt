// A gate: the way that updates take into a directory. A trait.
ghost use Rattle.std.specs.Prelude.{◌≡◌, ℕ};
ghost use Rattle.ldap_op.specs.View.{update_view};
ghost use Rattle.directory_api.specs.Counting.{Counts};
ghost use Rattle.directory_api.specs.Talk.{Exchange, asked_role, updated};
ghost use Rattle.directory_api.specs.View.{role_view, ended_view};

use crate::reply::Reply;
use ldap_op::{Client, Update};
use std::alloc::Global;

/// What a replica is to an update.
#[derive(Drop)]
pub enum Role {
    /// Updates are made here.
    Primary,
    /// Updates are made at the replica of this URI (RFC 4516).
    Backup { uri: String },
    /// It is being found out where updates are made.
    Changing,
    /// The replica has no state yet, and answers nothing.
    Recovering,
}

/// How an update ended.
#[derive(Drop)]
pub enum Ended {
    /// It was made or refused as the update of this number, with this reply.
    Done { number: u64, reply: Reply },
    /// The client has made a later request.
    Stale,
    /// It is not known whether it was made.
    Lost,
    NoMemory,
}

/// What is asked for updates. It tells what a reader may be told, a T.
pub trait Gate<T> {
    // Which exchanges there may be, and what the gate is after each.
    ghost allows: { Self → Exchange T → Self → Type 0 };

    // The count of updates that were asked of it, as it is stored.
    ghost count: { Self → ℕ };

    /// What the replica is to an update now, and what a reader is told then. It may wait.
    fn role(&mut self, alloc: Global) -> (Role, T)
        ensures { allows self.old (asked_role (role_view result.0) result.1) self.new };

    /// An update (RFC 4511 4.6 to 4.9) as a client's request of this number. A request whose number was answered before
    /// is answered the same again. It may wait.
    fn update(&mut self, alloc: Global, client: Client, number: u64, update: Update) -> Ended
        ensures { allows self.old (updated client number (update_view update) (ended_view result)) self.new };

    /// How many updates were asked of it; 18446744073709551615 stands for any greater number too.
    fn asked(&self) -> u64
        ensures { result ≡ count self.now };

    // The count rises by the updates of each exchange.
    ghost counts: { Counts count allows };
}
