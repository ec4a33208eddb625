// What is kept of a client's latest request.
ghost use Rattle.std.specs.Prelude.{◌≡◌, ◌↔◌, IsTrue};
ghost use Rattle.dir_store.specs.directory_api.Answers.{only as only_code};
ghost use Rattle.dir_store.specs.directory_api.View.{reply_view};

use dir_search::{Reply, ResultCode};

/// What a client's latest request was answered with.
#[derive(Drop)]
pub struct LatestReply {
    /// The request's number.
    pub request: u64,
    /// The number of its update.
    pub number: u64,
    pub reply: Reply,
}

/// Whether a reply is success and nothing else.
pub fn is_success(reply: &Reply) -> bool
    ensures { IsTrue result ↔ (reply_view reply.now ≡ only_code 0) }
{
    reply.code == ResultCode::SUCCESS && reply.matched.is_empty()
}
