//! A publisher: shows its seats what a node has executed.
ghost use Rattle.std.specs.Prelude.{◌≡◌, ◌↔◌, ◌<◌, [], drop, true, length, IsTrue, IfOk, MatchResult};
ghost use Rattle.left_right.specs.Sides.{view as known};
ghost use Rattle.dir_seats.specs.Lists.{with_records, IsBeginning};
ghost use Rattle.dir_seats.specs.Showing.{showing, latest};

use crate::rule::ShownWriter;
use crate::seat::{Seat, Told};
use crate::shown::Shown;
use crate::steps::{show_in_place, tell};
use crate::teller::Teller;
use state_machine::Executed;
use std::alloc::{AllocError, Global};
use std::marker::{Model, PhantomData};
use std::sync::Wait;

/// Shows what was executed to the seats of the node that N names. It keeps the runtime, since showing waits for the
/// seats that are just about to share an older version, as its drop does; once it is dropped, each seat answers `Gone`.
/// Contracts see what it shows, and the records that it is to show next.
pub struct Publisher<N, R: Wait + Drop> {
    alloc: Global,
    writer: ShownWriter,
    /// How many records the latest version has that it was given.
    count: u64,
    rt: R,
    of: PhantomData<N>,
}

impl<N, R: Wait + Drop> Model for Publisher<N, R> {
    ghost use Rattle.std.specs.Prelude.{drop};
    ghost use Rattle.left_right.specs.Sides.{view as known};
    ghost use Rattle.dir_seats.specs.Showing.{Showing, showing};
    ghost use Rattle.dir_seats.specs.private.Showing.{HoldsVersions};

    ghost Value = { Showing };

    ghost view = { λ p. showing p.writer.desk.shown.value (drop p.writer.behind p.writer.log.items) };

    ghost invariant = { λ p. HoldsVersions (known p.writer.desk.place) p.writer.desk.shown.value
        (drop p.writer.behind p.writer.log.items) p.count };
}

impl<N, R: Wait + Drop> Publisher<N, R> {
    /// The publisher of a writer that knows what it shows, and is to show nothing else.
    pub(crate) fn of_writer(alloc: Global, writer: ShownWriter, rt: R) -> Publisher<N, R>
        requires known { known writer.desk.place ≡ (true, writer.desk.shown.value) }
        requires waiting { drop writer.behind writer.log.items ≡ [] }
        ensures published { result.published ≡ writer.desk.shown.value }
        ensures waiting { result.waiting ≡ [] }
    {
        let count = writer.published().count();
        Publisher {
            alloc,
            writer,
            count,
            rt,
            of: PhantomData,
        }
    }

    /// Whether it was given records that aren't shown yet.
    pub fn is_behind(&self) -> bool
        ensures { IsTrue result ↔ (0 < length self.now.waiting) }
    {
        self.writer.published().count() < self.count
    }

    /// All that was executed is to be shown next. Want of memory, its only error, changes nothing.
    pub fn append(&mut self, executed: &Executed) -> Result<(), AllocError>
        requires follows { IsBeginning (with_records self.old.published self.old.waiting) executed.now }
        ensures published { self.new.published ≡ self.old.published }
        ensures waiting { MatchResult result (λ _. with_records self.new.published self.new.waiting ≡ executed.now)
            (λ _. self.new.waiting ≡ self.old.waiting) }
    {
        let count = executed.len() as u64;
        if count == self.count {
            return Ok(());
        }
        let next = Shown::of(self.alloc, executed)?;
        let Ok(()) = self.writer.append(next) else {
            return Err(AllocError);
        };
        self.count = count;
        Ok(())
    }

    /// Shows all that was appended. It waits for the seats that are just about to share an older version. Want of
    /// memory, its only error, changes nothing.
    pub fn publish(&mut self) -> Result<(), AllocError>
        ensures { MatchResult result (λ _. (self.new.published ≡ with_records self.old.published self.old.waiting)
            × (self.new.waiting ≡ [])) (λ _. self.new ≡ self.old) }
    {
        show_in_place(&mut self.writer, &self.rt)?;
        Ok(())
    }

    /// Hands out the whole of what is published. It is refused where each place for a reader is taken.
    pub fn tell(&mut self) -> Result<Told<N>, AllocError>
        ensures kept { self.new ≡ self.old }
        ensures told { IfOk result (λ told. told ≡ self.old.published) }
    {
        let at = self.writer.published().count();
        let reader = tell(&mut self.writer)?;
        Ok(Told::of_seat(Seat::of_reader(reader, at)))
    }

    /// What tells what is published, without this publisher. The only error is that too many have it.
    pub fn teller(&self) -> Result<Teller<N>, AllocError> {
        Ok(Teller::of_factory(self.writer.factory().another()?))
    }
}

impl<N, R: Wait + Drop> Drop for Publisher<N, R> {
    fn drop(self) {
        let Publisher {
            alloc: _,
            writer,
            count: _,
            rt,
            of: _,
        } = self;
        drop(writer.take(&rt));
    }
}
