// A directory, as a session asks it: what is read of it and what is updated in it, one question at a time.
ghost use Rattle.std.specs.Prelude.{Result};
ghost use Rattle.ldap_msg.specs.View.{search_view, compare_view};
ghost use Rattle.ldap_op.specs.View.{update_view};
ghost use Rattle.directory_api.specs.View.{answer_view, reply_view, role_view, ended_view};
ghost use Rattle.directory_api.specs.Talk.{Exchange, asked_role, learned, searched, compared, looked, updated};

use crate::gate::{Ended, Role};
use crate::outcomes::{Found, LookError};
use crate::reply::Reply;
use crate::search_answer::SearchAnswer;
use ldap_msg::{CompareRequest, SearchRequest};
use ldap_op::{Client, Update};
use std::alloc::Global;

/// A directory that is read and updated. A look and a gate are one, as a pair.
pub trait Directory {
    /// What a reader may be told of the directory's state.
    type Told;

    // Which exchanges there may be, and what the directory is after each. A session knows nothing of it, so it can only
    // ask.
    ghost allows: { Self → Exchange Self.Told → Self → Type 0 };

    /// A search (RFC 4511 4.5) at a state no older than the update of this number; 0 is any.
    fn search(
        &mut self,
        alloc: Global,
        named: u64,
        request: &SearchRequest,
    ) -> Result<Found<SearchAnswer>, LookError>
        ensures { allows self.old (searched named (search_view request.now) (looked answer_view result)) self.new };

    /// A compare (RFC 4511 4.10) at a state no older than the update of this number; 0 is any.
    fn compare(
        &mut self,
        alloc: Global,
        named: u64,
        request: &CompareRequest,
    ) -> Result<Found<Reply>, LookError>
        ensures { allows self.old (compared named (compare_view request.now) (looked reply_view result)) self.new };

    /// Later reads are of states no older than what is told.
    fn learn(&mut self, told: Self::Told)
        ensures { allows self.old (learned told) self.new };

    /// What the replica is to an update now, and what a reader is told then. It may wait.
    fn role(&mut self, alloc: Global) -> (Role, Self::Told)
        ensures { allows self.old (asked_role (role_view result.0) result.1) self.new };

    /// An update (RFC 4511 4.6 to 4.9) as a client's request of this number. A request whose number was answered before
    /// is answered the same again. It may wait.
    fn update(&mut self, alloc: Global, client: Client, number: u64, update: Update) -> Ended
        ensures { allows self.old (updated client number (update_view update) (ended_view result)) self.new };
}
