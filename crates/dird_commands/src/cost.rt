//! Shows what a search costs, in place of its entries: for its filter, and for each item of it alone, how many entries
//! it shows and on how many it is evaluated. An item that is evaluated on none is decided by an index.
use crate::explaining::search_refusal;
use crate::fault::Fault;
use crate::opening::EmptyDirectory;
use crate::reasons::write_refusal;
use crate::refusal::Refusal;
use crate::texts::{read_all, read_question};
use command_line::Question;
use filter_text::{print_text, read_text};
use ldap_filter::Filter;
use local_directory::{Cost, DerefAliases, SearchRequest, Store, fill, search_cost};
use std::alloc::{AllocError, Global};
use std::io::{BufRead, Write};

/// More than the filters and items that a filter may have.
const MANY: usize = 2048;

/// Puts the parts of a filter beside what is still to be looked at; whether it is an item, which has none.
fn open<'f>(left: &mut Vec<&'f Filter>, filter: &'f Filter) -> Result<bool, AllocError> {
    match filter {
        Filter::And(parts) | Filter::Or(parts) => {
            for part in parts.iter().rev() {
                left.push(part)?;
            }
            Ok(false)
        }
        Filter::Not(part) => {
            left.push(part)?;
            Ok(false)
        }
        _ => Ok(true),
    }
}

/// The text of an item.
fn text_of(alloc: Global, item: &Filter) -> Result<String, Fault> {
    Ok(print_text(alloc, item)?)
}

/// The texts of a filter's items, in their order.
fn items_of(alloc: Global, filter: &Filter) -> Result<Vec<String>, Refusal> {
    let mut items = Vec::new(alloc);
    let mut left = Vec::new(alloc);
    left.push(filter)?;
    for _ in 0..MANY {
        let Some(next) = left.pop() else {
            break;
        };
        if open(&mut left, next)? {
            items.push(text_of(alloc, next)?)?;
        }
    }
    Ok(items)
}

/// The request for the entries of one item alone.
fn request_of(alloc: Global, question: &Question<'_>, item: &str) -> Result<SearchRequest, Fault> {
    Ok(SearchRequest {
        base: String::from_str(alloc, question.base)?,
        scope: question.scope,
        deref_aliases: DerefAliases::NeverDerefAliases,
        size_limit: 0,
        time_limit: 0,
        types_only: false,
        filter: read_text(alloc, item)?,
        attributes: Vec::new(alloc),
    })
}

/// The directory of the input's records.
fn fill_store(
    alloc: Global,
    empty: &EmptyDirectory,
    text: &[u8],
    base: &str,
) -> Result<Store, Refusal> {
    let store = empty.store(alloc)?;
    match fill(alloc, store, text) {
        Ok(store) => Ok(store),
        Err(error) => Err(search_refusal(alloc, &empty.schema, text, base, error)),
    }
}

/// What a request costs.
fn cost_of(
    alloc: Global,
    empty: &EmptyDirectory,
    store: &Store,
    request: &SearchRequest,
) -> Result<Cost, Refusal> {
    match search_cost(alloc, store, request) {
        Ok(cost) => Ok(cost),
        Err(error) => {
            let base = request.base.as_str();
            Err(search_refusal(alloc, &empty.schema, &[], base, error))
        }
    }
}

/// Writes a filter with what its request costs.
fn write_cost<W: Write>(
    alloc: Global,
    empty: &EmptyDirectory,
    store: &Store,
    filter: &str,
    request: &SearchRequest,
    output: &mut W,
) -> Result<(), Refusal> {
    let Cost { shown, tests } = cost_of(alloc, empty, store, request)?;
    match writeln!(output, "{filter}: {shown} shown, {tests} evaluated") {
        Ok(()) => Ok(()),
        Err(error) => Err(write_refusal(alloc, error.kind())),
    }
}

/// Shows what the search of a question costs over the records of the input, and beneath it each item of its filter
/// alone.
pub fn explain_input<R: BufRead, W: Write>(
    alloc: Global,
    empty: &EmptyDirectory,
    question: &Question<'_>,
    input: &mut R,
    output: &mut W,
) -> Result<(), Refusal> {
    let request = read_question(alloc, question)?;
    let items = items_of(alloc, &request.filter)?;
    let text = read_all(alloc, input)?;
    let store = fill_store(alloc, empty, &text, question.base)?;
    write_cost(alloc, empty, &store, question.filter, &request, output)?;
    for item in &items {
        let request = request_of(alloc, question, item.as_str())?;
        write_cost(alloc, empty, &store, item.as_str(), &request, output)?;
    }
    Ok(())
}
