//! Looks: the one step of a reader, which shares what is published then, and what is read of it afterwards: a look
//! holds up no publication, whatever it costs. Floors are kept above.
ghost use Rattle.std.specs.Prelude.{◌≡◌, ◌<◌, ◌≤◌, length, IfSome, IfNone};
ghost use Rattle.dir_search.specs.directory_api.ldap_msg.View.{search_view, compare_view};
ghost use Rattle.dir_search.specs.directory_api.View.{reply_view};
ghost use Rattle.dir_search.specs.Answer.{answer};
ghost use Rattle.dir_search.specs.Compared.{compared};
ghost use Rattle.dir_search.specs.directory_api.View.{answer_view};
ghost use Rattle.dir_search.specs.directory_api.Reading.{IsReadAt};
ghost use Rattle.dir_search.specs.directory_api.Talk.{looked};
ghost use Rattle.dir_search.specs.directory_api.declared.outcomes.LookError.TheVariants as look_error;
ghost use Rattle.state_machine.specs.Executing.{directory_at};
ghost use Rattle.left_right.specs.Sides.{view};
ghost use Rattle.dir_seats.specs.Rule.{Reaches};
ghost use Rattle.std.specs.Prelude.{true};

use crate::rule::{ShownReader, Sight};
use crate::shown::Shown;
use dir_search::{
    CompareRequest, Found, LookError, Reply, SearchAnswer, SearchRequest, compare_at, search_at,
};
use std::alloc::Global;

/// What was read of a published list, and how many records the list has.
#[derive(Drop)]
pub struct Seen<A> {
    pub at: u64,
    pub read: Result<Found<A>, LookError>,
}

/// Why nothing was read of a list of so many records that found no second owner.
fn unread(at: u64, named: u64) -> LookError
    ensures early { at < named → result ≡ look_error.NotYet at }
    ensures no_memory { named ≤ at → result ≡ look_error.NoMemory }
{
    if at < named {
        LookError::NotYet { at }
    } else {
        LookError::NoMemory
    }
}

/// A search of what is shown.
fn search_shown(
    alloc: Global,
    shown: &Shown,
    named: u64,
    request: &SearchRequest,
) -> Result<Found<SearchAnswer>, LookError>
    ensures { IsReadAt (length shown.now.records) named (answer (directory_at shown.now) (search_view request.now))
        (looked answer_view result) }
{
    let at = shown.count();
    search_at(alloc, &shown.store().reading(), at, named, request)
}

/// A compare in what is shown.
fn compare_shown(
    alloc: Global,
    shown: &Shown,
    named: u64,
    request: &CompareRequest,
) -> Result<Found<Reply>, LookError>
    ensures { IsReadAt (length shown.now.records) named (compared (directory_at shown.now) (compare_view request.now))
        (looked reply_view result) }
{
    let at = shown.count();
    compare_at(alloc, &shown.store().reading(), at, named, request)
}

/// A reader that knows what is published then, and how many records that has; none, where the publisher is gone.
pub fn look(reader: ShownReader) -> Option<(ShownReader, u64)>
    ensures floor { IfSome result (λ seen. Reaches (view reader.place) (view seen.0.place).1) }
    ensures known { IfSome result (λ seen. (view seen.0.place).0 ≡ true) }
    ensures at { IfSome result (λ seen. seen.1 ≡ length (view seen.0.place).1.records) }
{
    match reader.enter_as::<Sight>() {
        Ok(reading) => {
            let at = reading.get().count();
            Some((reading.leave(), at))
        }
        Err(_) => None,
    }
}

/// A search of what is then published; none, where the publisher is gone.
pub fn look_search(
    reader: ShownReader,
    alloc: Global,
    named: u64,
    request: &SearchRequest,
) -> (ShownReader, Option<Seen<SearchAnswer>>)
    ensures floor { IfSome result.1 (λ seen. Reaches (view reader.place) (view result.0.place).1) }
    ensures known { IfSome result.1 (λ seen. (view result.0.place).0 ≡ true) }
    ensures at { IfSome result.1 (λ seen. seen.at ≡ length (view result.0.place).1.records) }
    ensures read { IfSome result.1 (λ seen. IsReadAt (length (view result.0.place).1.records) named
        (answer (directory_at (view result.0.place).1) (search_view request.now)) (looked answer_view seen.read)) }
    ensures gone { IfNone result.1 (view result.0.place ≡ view reader.place) }
{
    match reader.enter_as::<Sight>() {
        Ok(reading) => {
            let at = reading.get().count();
            let shown = reading.get().share();
            let reader = reading.leave();
            let read = match shown {
                Ok(shown) => search_shown(alloc, &shown, named, request),
                Err(_) => Err(unread(at, named)),
            };
            (reader, Some(Seen { at, read }))
        }
        Err(reader) => (reader, None),
    }
}

/// A compare in what is then published; none, where the publisher is gone.
pub fn look_compare(
    reader: ShownReader,
    alloc: Global,
    named: u64,
    request: &CompareRequest,
) -> (ShownReader, Option<Seen<Reply>>)
    ensures floor { IfSome result.1 (λ seen. Reaches (view reader.place) (view result.0.place).1) }
    ensures known { IfSome result.1 (λ seen. (view result.0.place).0 ≡ true) }
    ensures at { IfSome result.1 (λ seen. seen.at ≡ length (view result.0.place).1.records) }
    ensures read { IfSome result.1 (λ seen. IsReadAt (length (view result.0.place).1.records) named
        (compared (directory_at (view result.0.place).1) (compare_view request.now)) (looked reply_view seen.read)) }
    ensures gone { IfNone result.1 (view result.0.place ≡ view reader.place) }
{
    match reader.enter_as::<Sight>() {
        Ok(reading) => {
            let at = reading.get().count();
            let shown = reading.get().share();
            let reader = reading.leave();
            let read = match shown {
                Ok(shown) => compare_shown(alloc, &shown, named, request),
                Err(_) => Err(unread(at, named)),
            };
            (reader, Some(Seen { at, read }))
        }
        Err(reader) => (reader, None),
    }
}
