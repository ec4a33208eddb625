//! Shows the entries that are found, up to the size limit.
ghost use Rattle.std.specs.Prelude.{◌≡◌, ◌<◌, ◌++◌, ◌∷◌, [], map, IfOk, OnOk};
ghost use Rattle.std.specs.Bool.{OnTrue, OnFalse};
ghost use Rattle.std.specs.Arc.{arc_value};
ghost use Rattle.indexed_tree.specs.directory_api.FoundView.{found_view};
ghost use Rattle.indexed_tree.specs.Stored.{named};
ghost use Rattle.dir_search.specs.private.Looks.{AreHere};
ghost use Rattle.dir_search.specs.private.Numbered.{entries_of};
ghost use Rattle.dir_search.specs.Selection.{selected};
ghost use Rattle.dir_search.specs.private.View.{selectors_of, shows_of, ShowsFound};
ghost use Rattle.indexed_tree.specs.directory_api.View.{answer_view};

use crate::entry_reader::EntryReader;
use crate::selecting::Showing;
use crate::values::Evaluated;
use indexed_tree::{
    FoundEntry, IndexedTree, ResultCode, Schema, SearchAnswer, SearchRequest, Shows, Tree,
};
use search_plans::PlanRun;
use std::alloc::{AllocError, Global};
use std::sync::Arc;

/// Whether so many entries are all that the limit lets through; 0 is no limit.
fn is_full(limit: usize, count: usize) -> bool
    ensures full { OnTrue result ((0 < limit) × (count ≡ limit)) }
    ensures more { OnFalse result (0 < limit → count ≡ limit → ⊥) }
{
    limit > 0 && count == limit
}

/// The answer with these entries.
fn ended(alloc: Global, code: ResultCode, entries: Vec<FoundEntry>, tests: u64) -> SearchAnswer
    ensures shown { answer_view result ≡ record { code = code; matched = []; entries = map found_view entries.items } }
    ensures tests { result.tests ≡ tests }
{
    SearchAnswer {
        code,
        matched: String::new(alloc),
        entries,
        tests: tests as usize,
    }
}

impl Showing<'_> {
    /// Adds what is shown of the entry of a number.
    #[tactic(auto, using(crate::proofs::Numbers::shown_one, crate::proofs::Numbers::shown_none))]
    fn show_next(
        &self,
        reader: &mut EntryReader<'_>,
        number: u64,
        entries: &mut Vec<FoundEntry>,
    ) -> Result<(), AllocError>
        requires { reader.old.schema ≡ self.now.schema.now }
        ensures same { reader.new ≡ reader.old }
        ensures shown { OnOk result (map found_view entries.new.items ≡ map found_view entries.old.items
            ++ map (selected self.now.schema.now (selectors_of self.now.request.now) self.now.request.now.types_only)
            (map named (entries_of (number ∷ []) reader.old.entries))) }
    {
        match reader.entry(number) {
            Some(entry) => {
                let shown = self.show_entry(reader, number, entry)?;
                entries.push(shown)?;
                Ok(())
            }
            None => Ok(()),
        }
    }

    /// What is shown of the entries that a run gives, up to the limit; 0 is no limit. It stops at the first past it.
    fn show_found(
        &self,
        tree: &Tree,
        mut running: PlanRun<'_, IndexedTree, Evaluated<'_>>,
    ) -> Result<SearchAnswer, AllocError>
        requires { AreHere tree.now.entries running.to_come }
        ensures { IfOk result (λ a. ShowsFound a
            (selected self.now.schema.now (selectors_of self.now.request.now) self.now.request.now.types_only)
            self.now.request.now.size_limit tree.now.entries running.entry.to_come running.entry.open_numbers) }
    {
        let limit = self.request.size_limit as usize;
        let mut reader = EntryReader::new(self.alloc, self.schema, tree);
        let mut entries = Vec::new(self.alloc);
        while let Some(number) = running.next() {
            if is_full(limit, entries.as_slice().len()) {
                let code = ResultCode::SIZE_LIMIT_EXCEEDED;
                return Ok(ended(self.alloc, code, entries, running.tests()));
            }
            self.show_next(&mut reader, number, &mut entries)?;
        }
        let code = ResultCode::SUCCESS;
        Ok(ended(self.alloc, code, entries, running.tests()))
    }
}

/// What a request has shown of the entries that a run gives.
pub fn show_found(
    alloc: Global,
    schema: &Schema,
    tree: &Tree,
    request: &SearchRequest,
    shows: &Arc<Shows>,
    running: PlanRun<'_, IndexedTree, Evaluated<'_>>,
) -> Result<SearchAnswer, AllocError>
    requires here { AreHere tree.now.entries running.to_come }
    requires shown_as { arc_value shows.now ≡ shows_of schema.now request.now }
    ensures { IfOk result (λ a. ShowsFound a (selected schema.now (selectors_of request.now) request.now.types_only)
        request.now.size_limit tree.now.entries running.entry.to_come running.entry.open_numbers) }
{
    let showing = Showing {
        alloc,
        schema,
        request,
        shows,
    };
    showing.show_found(tree, running)
}
