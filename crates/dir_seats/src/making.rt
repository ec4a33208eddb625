//! Makes a publisher and its seats at the start of a node, over a directory without entries.
ghost use Rattle.std.specs.Prelude.{◌≡◌, ◌<◌, ◌≤◌, [], drop as without_first, true, length, IfOk, All};
ghost use Rattle.std.specs.Arc.{arc_value};
ghost use Rattle.left_right.specs.Sides.{view};
ghost use Rattle.dir_seats.specs.Lists.{nothing_over};

use crate::publisher::Publisher;
use crate::rule::ShownWriter;
use crate::seat::Seat;
use crate::shown::Shown;
use crate::steps::show;
use left_right::writer::Writer;
use state_machine::{Executed, Indexes, Name, Schema, Store};
use std::alloc::{AllocError, Global};
use std::sync::{Arc, Wait};

/// Nothing executed, over a copy of these.
fn shown_over(
    alloc: Global,
    schema: &Arc<Schema>,
    indexes: &Indexes,
    suffix: &Name,
) -> Result<Shown, AllocError>
    ensures { IfOk result (λ shown. shown ≡ nothing_over (arc_value schema.now) indexes.now suffix.now) }
{
    let schema = Arc::try_clone(schema)?;
    let store = Store::new(alloc, schema, indexes.copy(alloc)?, suffix.copy(alloc)?);
    Shown::of(alloc, &Executed::new(alloc, store))
}

/// A writer of one version and its second owner, with places for so many readers. It knows nothing yet.
fn new_writer(
    alloc: Global,
    schema: &Arc<Schema>,
    indexes: &Indexes,
    suffix: &Name,
    places: usize,
) -> Result<ShownWriter, AllocError>
    requires { (0 < places) × (places ≤ 96) }
    ensures shown { IfOk result (λ w. w.desk.shown.value ≡ nothing_over (arc_value schema.now) indexes.now suffix.now) }
    ensures waiting { IfOk result (λ w. without_first w.behind w.log.items ≡ []) }
{
    let first = shown_over(alloc, schema, indexes, suffix)?;
    let second = first.share()?;
    Writer::new(alloc, first, second, places)
}

/// A publisher of a directory without entries, with places for so many readers. The first publication, which shows
/// nothing more, lets it know what it shows.
fn new_publisher<N, R: Wait + Drop>(
    rt: R,
    alloc: Global,
    schema: &Arc<Schema>,
    indexes: &Indexes,
    suffix: &Name,
    places: usize,
) -> Result<Publisher<N, R>, AllocError>
    requires { (0 < places) × (places ≤ 96) }
    ensures published { IfOk result (λ p. p.published ≡ nothing_over (arc_value schema.now) indexes.now suffix.now) }
    ensures waiting { IfOk result (λ p. p.waiting ≡ []) }
{
    let writer = new_writer(alloc, schema, indexes, suffix, places)?;
    let (writer, shown) = show(writer, &rt);
    match shown {
        Ok(()) => Ok(Publisher::of_writer(alloc, writer, rt)),
        Err(error) => {
            drop(writer.take(&rt));
            Err(error)
        }
    }
}

/// So many seats that know what is published.
fn told_seats<N, R: Wait + Drop>(
    alloc: Global,
    publisher: &mut Publisher<N, R>,
    count: usize,
) -> Result<Vec<Seat<N>>, AllocError>
    ensures kept { publisher.new ≡ publisher.old }
    ensures count { IfOk result (λ seats. length seats.items ≡ count) }
    ensures fresh { IfOk result (λ seats. All (λ seat. seat ≡ publisher.old.published) seats.items) }
{
    let mut seats = Vec::new(alloc);
    'each: for _ in 0..count {
        let told = publisher.tell()?;
        seats.push(told.into_seat())?;
    }
    Ok(seats)
}

/// A publisher of a directory without entries, and so many seats that know it. Two places for readers are kept beside
/// each seat's own, for what its sessions are told. All seats of a node, and what they are told, are of one N; a
/// program makes one publisher for each N.
pub fn seats<N, R: Wait + Drop>(
    rt: R,
    alloc: Global,
    schema: &Arc<Schema>,
    indexes: &Indexes,
    suffix: &Name,
    count: usize,
) -> Result<(Publisher<N, R>, Vec<Seat<N>>), AllocError>
    requires { (0 < count) × (count ≤ 32) }
    ensures published { IfOk result (λ made. made.0.published ≡ nothing_over (arc_value schema.now) indexes.now
        suffix.now) }
    ensures waiting { IfOk result (λ made. made.0.waiting ≡ []) }
    ensures count { IfOk result (λ made. length made.1.items ≡ count) }
    ensures fresh { IfOk result (λ made. All (λ seat. seat ≡ nothing_over (arc_value schema.now) indexes.now
        suffix.now) made.1.items) }
{
    let mut publisher = new_publisher(rt, alloc, schema, indexes, suffix, 3 * count)?;
    let seats = told_seats(alloc, &mut publisher, count)?;
    Ok((publisher, seats))
}
