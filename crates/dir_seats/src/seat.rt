//! A seat: a reader of what one node publishes, and what it is told. No call of a seat takes a lock or waits.
ghost use Rattle.std.specs.Prelude.{◌≡◌, true, length};
ghost use Rattle.left_right.specs.Sides.{view as known};
ghost use Rattle.dir_search.specs.directory_api.ldap_msg.View.{search_view, compare_view};
ghost use Rattle.dir_search.specs.directory_api.View.{reply_view};
ghost use Rattle.dir_search.specs.Answer.{answer};
ghost use Rattle.dir_search.specs.Compared.{compared};
ghost use Rattle.dir_search.specs.directory_api.View.{answer_view};
ghost use Rattle.dir_search.specs.directory_api.Talk.{looked};
ghost use Rattle.state_machine.specs.Executing.{directory_at};
ghost use Rattle.dir_seats.specs.Lists.{longer};
ghost use Rattle.dir_seats.specs.Reads.{IsReadFrom};

use crate::look::{look_compare, look_search};
use crate::rule::ShownReader;
use core::mem::replace_with;
use dir_search::{CompareRequest, Found, Look, LookError, Reply, SearchAnswer, SearchRequest};
use std::alloc::Global;
use std::marker::{Model, PhantomData};

/// Reads what a node published. Contracts see it as its floor, the longest list that it saw or was told of; N names the
/// node.
pub struct Seat<N> {
    reader: ShownReader,
    at: u64,
    of: PhantomData<N>,
}

// Not derived: see "What the gate takes" in docs/ARCHITECTURE.md.
impl<N> Drop for Seat<N> {
    fn drop(self) {
        let Seat {
            reader: _,
            at: _,
            of: _,
        } = self;
    }
}

impl<N> Model for Seat<N> {
    ghost use Rattle.std.specs.Prelude.{◌≡◌, true, length};
    ghost use Rattle.left_right.specs.Sides.{view as known};
    ghost use Rattle.state_machine.specs.Executing.{ExecutedValue};

    ghost Value = { ExecutedValue };

    ghost view = { λ s. (known s.reader.place).1 };

    ghost invariant = { λ s. ((known s.reader.place).0 ≡ true) × (s.at ≡ length (known s.reader.place).1.records) };
}

/// A list that was published. Contracts see it as that list.
#[derive(Drop)]
pub struct Told<N> {
    seat: Seat<N>,
}

impl<N> Model for Told<N> {
    ghost use Rattle.state_machine.specs.Executing.{ExecutedValue};

    ghost Value = { ExecutedValue };

    ghost view = { λ t. t.seat };
}

impl<N> Seat<N> {
    /// The seat of a reader that has learned a list of so many records.
    pub(crate) fn of_reader(reader: ShownReader, at: u64) -> Seat<N>
        requires known { (known reader.place).0 ≡ true }
        requires at { at ≡ length (known reader.place).1.records }
        ensures { result ≡ (known reader.place).1 }
    {
        Seat {
            reader,
            at,
            of: PhantomData,
        }
    }

    /// A search (RFC 4511 4.5): the answer of one published list, which begins with the floor and is the floor from
    /// then on.
    pub fn search(
        &mut self,
        alloc: Global,
        named: u64,
        request: &SearchRequest,
    ) -> Result<Found<SearchAnswer>, LookError>
        ensures { IsReadFrom self.old self.new named (answer (directory_at self.new) (search_view request.now))
            (looked answer_view result) }
    {
        let seen = replace_with(
            &mut self.reader,
            request,
            |reader, request| look_search(reader, alloc, named, request),
        );
        match seen {
            Some(seen) => {
                self.at = seen.at;
                seen.read
            }
            None => Err(LookError::Gone),
        }
    }

    /// A compare (RFC 4511 4.10), as a search.
    pub fn compare(
        &mut self,
        alloc: Global,
        named: u64,
        request: &CompareRequest,
    ) -> Result<Found<Reply>, LookError>
        ensures { IsReadFrom self.old self.new named (compared (directory_at self.new) (compare_view request.now))
            (looked reply_view result) }
    {
        let seen = replace_with(
            &mut self.reader,
            request,
            |reader, request| look_compare(reader, alloc, named, request),
        );
        match seen {
            Some(seen) => {
                self.at = seen.at;
                seen.read
            }
            None => Err(LookError::Gone),
        }
    }

    /// The floor becomes the longer of itself and what is told.
    pub fn learn(&mut self, told: Told<N>)
        ensures { self.new ≡ longer told self.old }
    {
        let Told { seat } = told;
        if seat.at >= self.at {
            *self = seat;
        }
    }
}

impl<N> Told<N> {
    /// What a seat knows.
    pub(crate) fn of_seat(seat: Seat<N>) -> Told<N>
        ensures { result ≡ seat }
    {
        Told { seat }
    }

    /// A seat whose floor is what is told.
    pub fn into_seat(self) -> Seat<N>
        ensures { result ≡ self }
    {
        let Told { seat } = self;
        seat
    }
}

impl<N> Look for Seat<N> {
    ghost use Rattle.dir_seats.specs.Reads.{seat_allows};

    /// What was published when it was told; none, where there was no place to tell it by.
    type Told = Option<Told<N>>;

    // Each answer is the definition's, of one published list that begins with the seat's floor and is no shorter than
    // the number that was named.
    ghost allows = { seat_allows };

    fn search(
        &mut self,
        alloc: Global,
        named: u64,
        request: &SearchRequest,
    ) -> Result<Found<SearchAnswer>, LookError> {
        self.search(alloc, named, request)
    }

    fn compare(
        &mut self,
        alloc: Global,
        named: u64,
        request: &CompareRequest,
    ) -> Result<Found<Reply>, LookError> {
        self.compare(alloc, named, request)
    }

    fn learn(&mut self, told: Option<Told<N>>) {
        if let Some(told) = told {
            self.learn(told);
        }
    }
}
