//! Whether a text is a filter's, and where it stops being one; no recursion, however deep.

ghost use Rattle.std.specs.Prelude.{◌≡◌, ◌∷◌, [], List, reverse, None, IfOk, IfErr, OnOk};
ghost use Rattle.std.specs.Option.{option_map};
ghost use Rattle.filter_text.specs.private.FilterScan as scan;
ghost use Rattle.filter_text.specs.private.Scanning.{spot, stop, IsScanFault};

use crate::fault::FilterTextError;
use crate::place::{Around, ItemPlace, ScanState};
use crate::scanner::Scanner;
use crate::scanning_item::{item_ends, item_step};
use std::alloc::Global;

/// The scanner in an item, or none.
fn in_item(place: Option<ItemPlace>, around: Vec<Around>) -> Option<Scanner>
    ensures { option_map spot result ≡ option_map (λ s. scan.at (ScanState.InItem s) (reverse around.items)) place }
{
    match place {
        Some(item) => Some(Scanner {
            place: ScanState::InItem(item),
            around,
        }),
        None => None,
    }
}

/// The scanner inside one more filter.
fn deeper(
    mut around: Vec<Around>,
    new: Around,
    place: ScanState,
) -> Result<Scanner, FilterTextError>
    ensures found { IfOk result (λ s. spot s ≡ scan.at place (new ∷ reverse around.items)) }
    ensures fault { IfErr result (λ e. e ≡ FilterTextError.NoMemory) }
{
    around.push(new)?;
    Ok(Scanner { place, around })
}

/// The octet behind a filter's `(`.
fn inside_step(around: Vec<Around>, octet: u8) -> Result<Option<Scanner>, FilterTextError>
    ensures found { IfOk result (λ s. option_map spot s ≡ scan.inside_step (reverse around.items) octet) }
    ensures fault { IfErr result (λ e. e ≡ FilterTextError.NoMemory) }
{
    if octet == b'&' || octet == b'|' {
        Ok(Some(deeper(around, Around::Row, ScanState::Behind)?))
    } else if octet == b'!' {
        Ok(Some(deeper(around, Around::Negation, ScanState::Opening)?))
    } else {
        Ok(in_item(item_step(ItemPlace::Start, octet), around))
    }
}

/// The octet behind a filter in a row.
fn row_step(around: Vec<Around>, octet: u8) -> Result<Option<Scanner>, FilterTextError>
    ensures found { IfOk result (λ s. option_map spot s ≡ scan.behind_step (Around.Row ∷ reverse around.items) octet) }
    ensures fault { IfErr result (λ e. e ≡ FilterTextError.NoMemory) }
{
    if octet == b'(' {
        Ok(Some(deeper(around, Around::Row, ScanState::Inside)?))
    } else if octet == b')' {
        Ok(Some(Scanner {
            place: ScanState::Behind,
            around,
        }))
    } else {
        Ok(None)
    }
}

/// The octet behind a filter in a negation.
fn negation_step(around: Vec<Around>, octet: u8) -> Option<Scanner>
    ensures { option_map spot result ≡ scan.behind_step (Around.Negation ∷ reverse around.items) octet }
{
    if octet == b')' {
        Some(Scanner {
            place: ScanState::Behind,
            around,
        })
    } else {
        None
    }
}

/// The octet behind a filter.
fn behind_step(mut around: Vec<Around>, octet: u8) -> Result<Option<Scanner>, FilterTextError>
    ensures found { IfOk result (λ s. option_map spot s ≡ scan.behind_step (reverse around.items) octet) }
    ensures fault { IfErr result (λ e. e ≡ FilterTextError.NoMemory) }
{
    match around.pop() {
        None => Ok(None),
        Some(Around::Row) => row_step(around, octet),
        Some(Around::Negation) => Ok(negation_step(around, octet)),
    }
}

/// An octet of an item, or the `)` behind it.
fn item_or_close(place: ItemPlace, around: Vec<Around>, octet: u8) -> Option<Scanner>
    ensures { option_map spot result ≡ scan.step_at (ScanState.InItem place) (reverse around.items) octet }
{
    if octet == b')' {
        if !item_ends(place) {
            return None;
        }
        return Some(Scanner {
            place: ScanState::Behind,
            around,
        });
    }
    in_item(item_step(place, octet), around)
}

/// The next octet of a filter's text.
fn step(scanner: Scanner, octet: u8) -> Result<Option<Scanner>, FilterTextError>
    ensures found { IfOk result (λ s. option_map spot s ≡ scan.filter_step (spot scanner) octet) }
    ensures fault { IfErr result (λ e. e ≡ FilterTextError.NoMemory) }
{
    let Scanner { place, around } = scanner;
    match place {
        ScanState::Opening => {
            if octet == b'(' {
                Ok(Some(Scanner {
                    place: ScanState::Inside,
                    around,
                }))
            } else {
                Ok(None)
            }
        }
        ScanState::Inside => inside_step(around, octet),
        ScanState::InItem(item) => Ok(item_or_close(item, around, octet)),
        ScanState::Behind => behind_step(around, octet),
    }
}

/// Whether a filter's text may end here.
fn ends(scanner: &Scanner) -> bool
    ensures { result ≡ scan.filter_ends (spot scanner.now) }
{
    match scanner.place {
        ScanState::Behind => scanner.around.is_empty(),
        ScanState::Opening | ScanState::Inside | ScanState::InItem(_) => false,
    }
}

/// Passes a filter's text. E18 with the length of the longest front that begins some filter's text.
pub fn scan(alloc: Global, text: &[u8]) -> Result<(), FilterTextError>
    ensures passed { OnOk result (stop text.now ≡ None) }
    ensures stopped { IfErr result (λ e. IsScanFault e text.now) }
{
    let mut scanner = Scanner {
        place: ScanState::Opening,
        around: Vec::new(alloc),
    };
    let mut at = 0;
    for octet in text {
        match step(scanner, *octet)? {
            Some(next) => scanner = next,
            None => return Err(FilterTextError::BadFilterText { at }),
        }
        at += 1;
    }
    if ends(&scanner) {
        Ok(())
    } else {
        Err(FilterTextError::BadFilterText { at })
    }
}
