//! Finds which records of a text a directory refuses.

ghost use Rattle.std.specs.Prelude.{◌≡◌, ◌+◌, List, ◌++◌, Ok, IfOk, IfErr, OnOk};
ghost use Rattle.ldif.specs.Reading.{records_of as records_of_text};
ghost use Rattle.dir_store.specs.indexed_tree.Stored.{NumbersBelow};
ghost use Rattle.local_directory.specs.Added.{adds};
ghost use Rattle.local_directory.specs.Checked.{refusal_and, refusals, IsChecked};
ghost use Rattle.local_directory.specs.Searched.{IsReadFault};
ghost use Rattle.local_directory.specs.declared.refused_record.RefusedRecord.{RefusedRecord};
ghost use Rattle.local_directory.specs.declared.fault.SearchError.TheVariants as fault;

use crate::adding::add_record;
use crate::fault::SearchError;
use crate::refused_record::RefusedRecord;
use crate::searching::read_records;
use dir_store::Store;
use ldif::Record;
use std::alloc::{AllocError, Global};

/// What checking a text has found: how many records it has, and those that are refused, in their order.
#[derive(Drop)]
pub struct Checked {
    pub count: usize,
    pub refused: Vec<RefusedRecord>,
}

/// Notes a record whose add has this code, where that is a refusal.
fn note(refused: &mut Vec<RefusedRecord>, number: u64, code: u32) -> Result<(), AllocError>
    ensures { OnOk result ((rest : List RefusedRecord) → refused.new.items ++ rest ≡ refused.old.items ++ refusal_and
        number code rest) }
{
    if code != 0 {
        refused.push(RefusedRecord { number, code })?;
    }
    Ok(())
}

/// Adds records in their order, under the numbers from 1 on, and gives those that are refused.
fn check_records(
    alloc: Global,
    store: &mut Store,
    records: &[Record],
) -> Result<Vec<RefusedRecord>, SearchError>
    requires empty { NumbersBelow 1 store.old.directory.entries }
    ensures refused { IfOk result (λ v. v.items ≡ refusals store.old.directory 0 (adds records.now)) }
    ensures memory { IfErr result (λ e. e ≡ fault.NoMemory) }
{
    let mut refused = Vec::new(alloc);
    for (index, item) in records.iter().enumerate() {
        let number = index as u64 + 1;
        let code = add_record(alloc, store, number, item)?;
        note(&mut refused, number, code)?;
    }
    Ok(refused)
}

/// Which records of a text (RFC 2849) a directory without entries refuses, when each is added in turn under the numbers
/// from 1 on; a record that is refused changes nothing, and the next one is added all the same. A text that is no LDIF
/// is refused with its first wrong line.
pub fn check_text(alloc: Global, store: Store, text: &[u8]) -> Result<Checked, SearchError>
    requires empty { NumbersBelow 1 store.directory.entries }
    ensures checked { IfOk result (λ c. IsChecked store.directory text.now c.count c.refused.items) }
    ensures refused { IfErr result (λ e. IsReadFault e text.now) }
{
    let mut store = store;
    let records = read_records(alloc, text)?;
    let refused = check_records(alloc, &mut store, &records)?;
    Ok(Checked {
        count: records.len(),
        refused,
    })
}
