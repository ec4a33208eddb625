//! Executes records one after the other, and keeps the directory after them and the reply to each.
ghost use Rattle.std.specs.Prelude.{◌≡◌, ◌+◌, ◌^◌, ◌<◌, [], ◌∷◌, ◌++◌, length, slice_get, IfOk, OnOk, OnErr};
ghost use Rattle.std.specs.Option.{option_map};
ghost use Rattle.state_machine.specs.Executing.{IsFront, directory_at, replies_at, due_after};
ghost use Rattle.state_machine.specs.private.Executing.{IsRun, replies_view};
ghost use Rattle.dir_store.specs.directory_api.View.{reply_view};
ghost use Rattle.dir_store.specs.indexed_tree.Stored.{NumbersBelow};

use crate::coming::due;
use dir_store::{Applied, LogEntry, Op, Reply, Store};
use std::alloc::{AllocError, Global};
use std::marker::Model;

/// So many records make one version of the directory, unless memory runs out. A version copies what the one before has
/// in common with readers; the more records it has, the less is copied.
const AT_ONCE: usize = 1024;

/// The records that were executed, the directory after them and the reply to each. Records share their payloads with
/// the log.
pub struct Executed {
    records: Vec<LogEntry<Op>>,
    replies: Vec<Reply>,
    store: Store,
}

// Not derived: see "What the gate takes" in docs/ARCHITECTURE.md.
impl Drop for Executed {
    fn drop(self) {
        let Executed {
            records: _,
            replies: _,
            store: _,
        } = self;
    }
}

impl Model for Executed {
    ghost use Rattle.state_machine.specs.Executing.{ExecutedValue};
    ghost use Rattle.state_machine.specs.private.Executing.{IsFold, replies_view};

    ghost Value = { ExecutedValue };

    ghost view = { λ e. record {
      schema = e.store.directory.schema;
      suffix = e.store.directory.suffix;
      indexes =
          e.store.indexes;
      records = e.records.items;
    } };

    ghost invariant = { λ e. IsFold e.store.directory.schema e.store.directory.suffix e.records.items
        e.store.directory (replies_view e.replies.items) };
}

impl Executed {
    /// Nothing yet, over a directory without entries. It takes no memory.
    pub fn new(alloc: Global, store: Store) -> Executed
        requires empty { store.directory.entries ≡ [] }
        ensures { result ≡ record {
          schema = store.directory.schema;
          suffix = store.directory.suffix;
          indexes =
              store.indexes;
          records = [];
        } }
    {
        Executed {
            records: Vec::new(alloc),
            replies: Vec::new(alloc),
            store,
        }
    }

    /// How many records.
    pub fn len(&self) -> usize
        ensures { result ≡ length self.now.records }
    {
        self.records.len()
    }

    /// The records, in the order in which they were executed.
    pub fn records(&self) -> &[LogEntry<Op>]
        ensures { result.now ≡ self.now.records }
    {
        self.records.as_slice()
    }

    /// The directory after them.
    pub fn store(&self) -> &Store
        ensures directory { result.now.directory ≡ directory_at self.now }
        ensures indexes { result.now.indexes ≡ self.now.indexes }
    {
        &self.store
    }

    /// The reply to the record at this place, counted from 0.
    pub fn reply(&self, place: usize) -> Option<&Reply>
        ensures { option_map (λ r. reply_view r.now) result ≡ slice_get (replies_at self.now) place }
    {
        self.replies.get(place)
    }

    /// Executes one more record. The room is made first, the update comes after, and what then is left can't be
    /// refused: at an error, which is want of memory, nothing has changed.
    fn next(&mut self, alloc: Global, entry: &LogEntry<Op>) -> Result<(), AllocError>
        ensures records { OnOk result (self.new.records ≡ self.old.records ++ entry.now ∷ []) }
        ensures schema { OnOk result (self.new.schema ≡ self.old.schema) }
        ensures suffix { OnOk result (self.new.suffix ≡ self.old.suffix) }
        ensures indexes { OnOk result (self.new.indexes ≡ self.old.indexes) }
        ensures err { OnErr result (self.new ≡ self.old) }
    {
        let kept = entry.copy(alloc)?;
        self.records.reserve(1)?;
        self.replies.reserve(1)?;
        let number = self.records.len() as u64 + 1;
        let reply = self.store.apply(alloc, number, &entry.payload)?;
        self.records.push_reserved(kept);
        self.replies.push_reserved(reply);
        Ok(())
    }

    /// Executes some records and keeps the version after the last of them: those between are changed where they stand.
    /// The room is made before anything changes; at an error, which is want of memory, nothing has changed.
    fn next_several(&mut self, alloc: Global, entries: &[LogEntry<Op>]) -> Result<(), AllocError>
        ensures records { OnOk result (self.new.records ≡ self.old.records ++ entries.now) }
        ensures schema { OnOk result (self.new.schema ≡ self.old.schema) }
        ensures suffix { OnOk result (self.new.suffix ≡ self.old.suffix) }
        ensures indexes { OnOk result (self.new.indexes ≡ self.old.indexes) }
        ensures err { OnErr result (self.new ≡ self.old) }
    {
        let store = self.store.share()?;
        let number = self.records.len() as u64;
        let Batch {
            mut records,
            mut replies,
            store,
        } = batch_of(alloc, store, number, entries)?;
        self.records.reserve(records.len())?;
        self.replies.reserve(replies.len())?;
        self.records.append(&mut records)?;
        self.replies.append(&mut replies)?;
        self.store = store;
        Ok(())
    }

    /// Executes the committed records of a log that come next, in their order. Want of memory, its only error, stops it
    /// between two of them.
    pub fn advance(
        &mut self,
        alloc: Global,
        log: &[LogEntry<Op>],
        commit_number: u64,
    ) -> Result<(), AllocError>
        ensures ok { OnOk result (self.new.records ≡ self.old.records ++ due_after (length self.old.records)
            commit_number log.now) }
        ensures err { OnErr result (IsFront self.old.records (due_after (length self.old.records) commit_number
            log.now) self.new.records) }
        ensures schema { self.new.schema ≡ self.old.schema }
        ensures suffix { self.new.suffix ≡ self.old.suffix }
        ensures indexes { self.new.indexes ≡ self.old.indexes }
    {
        let records = due(log, commit_number, self.len());
        execute(alloc, self, records)
    }
}

/// Some records, the directory after them and the reply to each.
#[derive(Drop)]
struct Batch {
    records: Vec<LogEntry<Op>>,
    replies: Vec<Reply>,
    store: Store,
}

/// Makes the updates of some records one after the other, the first under the number that follows this one. What the
/// store alone owns is changed where it stands; at an error, which is want of memory, nothing is left.
fn batch_of(
    alloc: Global,
    store: Store,
    number: u64,
    entries: &[LogEntry<Op>],
) -> Result<Batch, AllocError>
    requires below { NumbersBelow (number + 1) store.directory.entries }
    requires room { number + length entries.now < 2 ^ 64 }
    ensures records { IfOk result (λ s. s.records.items ≡ entries.now) }
    ensures run { IfOk result (λ s. IsRun store.directory number entries.now s.store.directory
        (replies_view s.replies.items)) }
    ensures indexes { IfOk result (λ s. s.store.indexes ≡ store.indexes) }
{
    let mut records = Vec::with_capacity(alloc, entries.len())?;
    let mut replies = Vec::with_capacity(alloc, entries.len())?;
    let mut store = store;
    let mut last = number;
    for entry in entries {
        last += 1;
        let Applied { store: next, reply } = store.applied(alloc, last, &entry.payload)?;
        store = next;
        records.push(entry.copy(alloc)?)?;
        replies.push(reply)?;
    }
    Ok(Batch {
        records,
        replies,
        store,
    })
}

/// Executes these records in order, many at once; stops at the first that is refused memory.
fn execute(
    alloc: Global,
    executed: &mut Executed,
    records: &[LogEntry<Op>],
) -> Result<(), AllocError>
    ensures ok { OnOk result (executed.new.records ≡ executed.old.records ++ records.now) }
    ensures err { OnErr result (IsFront executed.old.records records.now executed.new.records) }
    ensures schema { executed.new.schema ≡ executed.old.schema }
    ensures suffix { executed.new.suffix ≡ executed.old.suffix }
    ensures indexes { executed.new.indexes ≡ executed.old.indexes }
{
    let mut done = 0;
    while done < records.len() {
        let end = done + (records.len() - done).min(AT_ONCE);
        execute_some(alloc, executed, &records[done..end])?;
        done = end;
    }
    Ok(())
}

/// Executes these records at once, or one by one where memory runs out for all of them; stops at the first that is
/// refused memory.
fn execute_some(
    alloc: Global,
    executed: &mut Executed,
    records: &[LogEntry<Op>],
) -> Result<(), AllocError>
    ensures ok { OnOk result (executed.new.records ≡ executed.old.records ++ records.now) }
    ensures err { OnErr result (IsFront executed.old.records records.now executed.new.records) }
    ensures schema { executed.new.schema ≡ executed.old.schema }
    ensures suffix { executed.new.suffix ≡ executed.old.suffix }
    ensures indexes { executed.new.indexes ≡ executed.old.indexes }
{
    match executed.next_several(alloc, records) {
        Ok(()) => Ok(()),
        Err(_) => execute_each(alloc, executed, records),
    }
}

/// Executes these records in order, and stops at the first that is refused memory.
fn execute_each(
    alloc: Global,
    executed: &mut Executed,
    records: &[LogEntry<Op>],
) -> Result<(), AllocError>
    ensures ok { OnOk result (executed.new.records ≡ executed.old.records ++ records.now) }
    ensures err { OnErr result (IsFront executed.old.records records.now executed.new.records) }
    ensures schema { executed.new.schema ≡ executed.old.schema }
    ensures suffix { executed.new.suffix ≡ executed.old.suffix }
    ensures indexes { executed.new.indexes ≡ executed.old.indexes }
{
    for entry in records {
        executed.next(alloc, entry)?;
    }
    Ok(())
}
