// A look and a gate as one directory: reads go to the one, updates to the other.
ghost use Rattle.directory_api.specs.Counting.{PairCounts};
ghost use Rattle.directory_api.specs.Pairs.{PairGoesAlong};

use crate::directory::Directory;
use crate::gate::{Ended, Gate, Role};
use crate::look::Look;
use crate::outcomes::{Found, LookError};
use crate::reply::Reply;
use crate::search_answer::SearchAnswer;
use ldap_msg::{CompareRequest, SearchRequest};
use ldap_op::{Client, Update};
use std::alloc::Global;

impl<L: Look, G: Gate<L::Told>> Directory for (L, G) {
    ghost use Rattle.directory_api.specs.Pairs.{both};

    type Told = L::Told;

    ghost allows = { both L.allows G.allows };

    fn search(
        &mut self,
        alloc: Global,
        named: u64,
        request: &SearchRequest,
    ) -> Result<Found<SearchAnswer>, LookError> {
        self.0.search(alloc, named, request)
    }

    fn compare(
        &mut self,
        alloc: Global,
        named: u64,
        request: &CompareRequest,
    ) -> Result<Found<Reply>, LookError> {
        self.0.compare(alloc, named, request)
    }

    fn learn(&mut self, told: L::Told) {
        self.0.learn(told);
    }

    fn role(&mut self, alloc: Global) -> (Role, L::Told) {
        self.1.role(alloc)
    }

    fn update(&mut self, alloc: Global, client: Client, number: u64, update: Update) -> Ended {
        self.1.update(alloc, client, number, update)
    }
}

/// Along a talk with a pair the look goes along the reads of it, and the gate along the rest: a law on the definitions,
/// so its body is empty.
pub fn pair_goes_along<L: Look, G: Gate<L::Told>>()
    ensures { PairGoesAlong L.allows G.allows }
{}

/// Along a talk with a pair the gate's count rises by exactly the updates of the talk: a law on the definitions, so its
/// body is empty.
pub fn pair_counts<L: Look, G: Gate<L::Told>>()
    ensures { PairCounts L.allows G.allows G.count }
{}
