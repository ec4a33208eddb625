//! A directory that has no memory for a search: what one is answered by where clients hold nearly all the memory that
//! they may.
ghost use Rattle.session_pool.specs.Refusing.{has_no_memory};

use client_link::{
    Client, CompareRequest, Directory, Ended, Found, LookError, Reply, Role, SearchAnswer,
    SearchRequest, Update,
};
use std::alloc::Global;

/// A directory that has no memory for a search, which is answered by 80.
#[derive(Drop)]
pub struct NoRoom;

impl Directory for NoRoom {
    type Told = ();

    // That it finds no memory is all that it says.
    ghost allows = { has_no_memory };

    fn search(
        &mut self,
        _alloc: Global,
        _named: u64,
        _request: &SearchRequest,
    ) -> Result<Found<SearchAnswer>, LookError> {
        Err(LookError::NoMemory)
    }

    fn compare(
        &mut self,
        _alloc: Global,
        _named: u64,
        _request: &CompareRequest,
    ) -> Result<Found<Reply>, LookError> {
        Err(LookError::Gone)
    }

    fn learn(&mut self, _told: ()) {}

    fn role(&mut self, _alloc: Global) -> (Role, ()) {
        (Role::Primary, ())
    }

    fn update(&mut self, _alloc: Global, _client: Client, _number: u64, _update: Update) -> Ended {
        Ended::Lost
    }
}
