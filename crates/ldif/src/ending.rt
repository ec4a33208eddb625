//! Reads the responses to a search, up to its end.

ghost use Rattle.std.specs.Prelude.{◌≡◌, ◌++◌, ◌∷◌, [], IfOk, OnOk};
ghost use Rattle.ldif.specs.Exports.{entries_in, wrong_at_end as wrong_with_end, first_wrong as wrong_first};

use crate::meant::Meant;
use crate::record::Record;
use crate::refusals::ExportError;
use std::alloc::{AllocError, Global};

/// What is wrong with the end of a search, of this code, where these stand behind it.
fn wrong_at_end(number: u32, behind: &[Meant]) -> Option<ExportError>
    ensures { result ≡ wrong_with_end number behind.now }
{
    if number != 0 {
        return Some(ExportError::Code { number });
    }
    match behind {
        [] => None,
        [_, ..] => Some(ExportError::BadMessage),
    }
}

/// What is wrong first with the responses to a search.
pub fn first_wrong(meant: &[Meant]) -> Option<ExportError>
    ensures { result ≡ wrong_first meant.now }
{
    for (index, next) in meant.iter().enumerate() {
        match next {
            Meant::Entry(_) => {}
            Meant::Done(number) => return wrong_at_end(*number, &meant[index + 1..]),
            Meant::Other => return Some(ExportError::BadMessage),
        }
    }
    Some(ExportError::NoDoneMessage)
}

/// Puts the record of an entry.
fn put_entry(next: Meant, records: &mut Vec<Record>) -> Result<(), AllocError>
    ensures { OnOk result (records.new.items ≡ records.old.items ++ entries_in (next ∷ [])) }
{
    match next {
        Meant::Entry(item) => records.push(item)?,
        Meant::Done(_) => {}
        Meant::Other => {}
    }
    Ok(())
}

/// The records of the entries among messages.
pub fn entries(alloc: Global, meant: Vec<Meant>) -> Result<Vec<Record>, AllocError>
    ensures { IfOk result (λ v. v.items ≡ entries_in meant.items) }
{
    let mut records = Vec::new(alloc);
    for next in meant {
        put_entry(next, &mut records)?;
    }
    Ok(records)
}
