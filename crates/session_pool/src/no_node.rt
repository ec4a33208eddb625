//! A directory that finds out where updates are made, and is asked nothing else: what an update is answered by that has
//! waited for too long.
ghost use Rattle.session_pool.specs.Refusing.{finds_out};

use client_link::{
    Client, CompareRequest, Directory, Ended, Found, LookError, Reply, Role, SearchAnswer,
    SearchRequest, Update,
};
use std::alloc::Global;

/// A directory whose role is Changing, so that an update is told that the directory is unavailable (52).
#[derive(Drop)]
pub struct NoNode;

impl Directory for NoNode {
    type Told = ();

    // Its role is all that it says.
    ghost allows = { finds_out };

    fn search(
        &mut self,
        _alloc: Global,
        _named: u64,
        _request: &SearchRequest,
    ) -> Result<Found<SearchAnswer>, LookError> {
        Err(LookError::Gone)
    }

    fn compare(
        &mut self,
        _alloc: Global,
        _named: u64,
        _request: &CompareRequest,
    ) -> Result<Found<Reply>, LookError> {
        Err(LookError::Gone)
    }

    fn learn(&mut self, _told: ()) {}

    fn role(&mut self, _alloc: Global) -> (Role, ()) {
        (Role::Changing, ())
    }

    fn update(&mut self, _alloc: Global, _client: Client, _number: u64, _update: Update) -> Ended {
        Ended::Lost
    }
}
