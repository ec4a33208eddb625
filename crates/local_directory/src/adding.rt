//! Adds records to a directory, up to the first that it refuses.

ghost use Rattle.std.specs.Prelude.{◌≡◌, ◌+◌, None, IfOk, IfErr, OnOk};
ghost use Rattle.dir_store.specs.directory_api.ldap_op.Values.{add as add_op};
ghost use Rattle.dir_store.specs.indexed_tree.Stored.{NumbersBelow};
ghost use Rattle.dir_store.specs.Updates.{applied, reply_to, directory_after};
ghost use Rattle.ldif.specs.Adds.{add_of as add_value};
ghost use Rattle.local_directory.specs.Added.{adds, first_refused};
ghost use Rattle.local_directory.specs.private.Added.{IsPutFault, IsAddFault};

use crate::fault::SearchError;
use dir_store::{Op, Store, Update};
use ldif::{Record, add_of};
use std::alloc::{AllocError, Global};

/// Adds a record under a number above all, and tells the result code.
pub fn add_record(
    alloc: Global,
    store: &mut Store,
    number: u64,
    item: &Record,
) -> Result<u32, AllocError>
    requires above { NumbersBelow number store.old.directory.entries }
    ensures applied { OnOk result (store.new.directory ≡ applied store.old.directory number
        (add_op (add_value item.now))) }
    ensures code { IfOk result
        (λ code. code ≡ (reply_to store.old.directory number (add_op (add_value item.now))).code) }
    ensures below { OnOk result (NumbersBelow (number + 1) store.new.directory.entries) }
    ensures indexes { store.new.indexes ≡ store.old.indexes }
{
    let add = add_of(alloc, item)?;
    let op = Op::new(alloc, Update::Add(add))?;
    let reply = store.apply(alloc, number, &op)?;
    Ok(reply.code.number())
}

/// Adds a record as above, or tells that it is refused.
fn put_record(
    alloc: Global,
    store: &mut Store,
    number: u64,
    item: &Record,
) -> Result<(), SearchError>
    requires above { NumbersBelow number store.old.directory.entries }
    ensures applied { OnOk result (store.new.directory ≡ applied store.old.directory number
        (add_op (add_value item.now))) }
    ensures accepted { OnOk result ((reply_to store.old.directory number (add_op (add_value item.now))).code ≡ 0) }
    ensures below { OnOk result (NumbersBelow (number + 1) store.new.directory.entries) }
    ensures refused { IfErr result (λ e. IsPutFault e number (reply_to store.old.directory number
        (add_op (add_value item.now))).code) }
    ensures indexes { store.new.indexes ≡ store.old.indexes }
{
    let code = add_record(alloc, store, number, item)?;
    if code == 0 {
        Ok(())
    } else {
        Err(SearchError::Refused { number, code })
    }
}

/// Adds records in their order, under the numbers from 1 on, up to the first that is refused.
pub fn add_records(alloc: Global, store: &mut Store, records: &[Record]) -> Result<(), SearchError>
    requires empty { NumbersBelow 1 store.old.directory.entries }
    ensures filled { OnOk result (store.new.directory ≡ directory_after store.old.directory 0 (adds records.now)) }
    ensures accepted { OnOk result (first_refused store.old.directory 0 (adds records.now) ≡ None) }
    ensures refused { IfErr result (λ e. IsAddFault e store.old.directory records.now) }
    ensures indexes { store.new.indexes ≡ store.old.indexes }
{
    for (index, item) in records.iter().enumerate() {
        put_record(alloc, store, index as u64 + 1, item)?;
    }
    Ok(())
}
