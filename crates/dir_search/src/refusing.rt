// Answers a search that has nothing to find.
ghost use Rattle.indexed_tree.specs.directory_api.View.{reply_view};
ghost use Rattle.indexed_tree.specs.directory_api.Answers.{refused as refused_answer};
ghost use Rattle.dir_search.specs.private.View.{Finds};

use indexed_tree::{Reply, SearchAnswer};
use std::alloc::Global;

/// No entries, and a reply that is not success.
pub fn refused(alloc: Global, reply: Reply) -> SearchAnswer
    ensures { Finds result (refused_answer (reply_view reply)) 0 }
{
    let Reply { code, matched } = reply;
    SearchAnswer {
        code,
        matched,
        entries: Vec::new(alloc),
        tests: 0,
    }
}
