//! A look that finds nothing: the reads of a directory that only updates.
ghost use Rattle.std.specs.Prelude.{◌≡◌};
ghost use Rattle.client_link.specs.directory_api.Talk.{Exchange};

use client_link::{CompareRequest, Found, Look, LookError, Reply, SearchAnswer, SearchRequest};
use std::alloc::Global;
use std::marker::PhantomData;

/// A look that finds nothing, and that anything may be told.
#[derive(Drop)]
pub struct NoReads<T> {
    told: PhantomData<T>,
}

impl<T> NoReads<T> {
    pub fn new() -> NoReads<T> {
        NoReads { told: PhantomData }
    }
}

impl<T: Drop> Look for NoReads<T> {
    type Told = T;

    // It stays as it is.
    ghost allows = { λ d x e. d ≡ e };

    fn search(
        &mut self,
        _alloc: Global,
        _named: u64,
        _request: &SearchRequest,
    ) -> Result<Found<SearchAnswer>, LookError> {
        Err(LookError::Gone)
    }

    fn compare(
        &mut self,
        _alloc: Global,
        _named: u64,
        _request: &CompareRequest,
    ) -> Result<Found<Reply>, LookError> {
        Err(LookError::Gone)
    }

    fn learn(&mut self, _told: T) {}
}
