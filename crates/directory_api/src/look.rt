// Reads of a directory, as a session asks for them. A trait.
ghost use Rattle.std.specs.Prelude.{Result};
ghost use Rattle.ldap_msg.specs.View.{search_view, compare_view};
ghost use Rattle.directory_api.specs.View.{answer_view, reply_view};
ghost use Rattle.directory_api.specs.Talk.{Exchange, learned, searched, compared, looked};

use crate::outcomes::{Found, LookError};
use crate::reply::Reply;
use crate::search_answer::SearchAnswer;
use ldap_msg::{CompareRequest, SearchRequest};
use std::alloc::Global;

/// A directory that is read. Each read names the number of an update, and is answered from a state no older.
pub trait Look {
    /// What a reader may be told of the directory's state.
    type Told;

    // Which exchanges there may be, and what the directory is after each. A session knows nothing of it, so it can only
    // ask.
    ghost allows: { Self → Exchange Self.Told → Self → Type 0 };

    /// A search (RFC 4511 4.5) at a state no older than the update of this number; 0 is any.
    fn search(
        &mut self,
        alloc: Global,
        named: u64,
        request: &SearchRequest,
    ) -> Result<Found<SearchAnswer>, LookError>
        ensures { allows self.old (searched named (search_view request.now) (looked answer_view result)) self.new };

    /// A compare (RFC 4511 4.10) at a state no older than the update of this number; 0 is any.
    fn compare(
        &mut self,
        alloc: Global,
        named: u64,
        request: &CompareRequest,
    ) -> Result<Found<Reply>, LookError>
        ensures { allows self.old (compared named (compare_view request.now) (looked reply_view result)) self.new };

    /// Later reads are of states no older than what is told.
    fn learn(&mut self, told: Self::Told)
        ensures { allows self.old (learned told) self.new };
}
