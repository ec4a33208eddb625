// Chooses the runs of three octets that a plan asks a substrings assertion's candidates for.

ghost use Rattle.std.specs.Prelude.{◌≡◌, OnOk, IfOk};
ghost use Rattle.std.specs.Option.{option_copied};
ghost use Rattle.ldap_eval.specs.ldap_syntax.Parts.{part_or_nothing};
ghost use Rattle.search_plans.specs.OctetRuns.{runs_of, runs_of_all, with_run, with_runs, asked_runs};
ghost use Rattle.search_plans.specs.private.OctetRuns.{run_plans};

use crate::plan::Plan;
use dir_index::Posting;
use ldap_eval::{Key, PartKeys, TypeId};
use std::alloc::{AllocError, Global};

/// The most runs that a plan asks for. Each candidate is asked for all of them, and each run of a part is compared with
/// those that are chosen; an entry that holds 64 runs of a part and not the part is rare.
const MOST_RUNS: usize = 64;

/// Adds a run, unless it is among those that are chosen or they are as many as a plan asks for.
fn push_run(run: &[u8; 3], runs: &mut Vec<[u8; 3]>) -> Result<(), AllocError>
    ensures { OnOk result (runs.new.items ≡ with_run runs.old.items run.now) }
{
    if runs.len() < MOST_RUNS && !runs.contains(run) {
        runs.push(*run)?;
    }
    Ok(())
}

/// Adds the runs of a part. Once they are as many as a plan asks for, the rest of the part isn't read.
fn push_runs(part: &[u8], runs: &mut Vec<[u8; 3]>) -> Result<(), AllocError>
    ensures { OnOk result (runs.new.items ≡ with_runs runs.old.items (runs_of part.now)) }
{
    let mut rest = part;
    while let [a, b, c, ..] = rest {
        if runs.len() >= MOST_RUNS {
            return Ok(());
        }
        push_run(&[*a, *b, *c], runs)?;
        rest = &rest[1..];
    }
    Ok(())
}

/// Adds the runs of a part that may be left out.
fn push_end_runs(end: Option<&Key>, runs: &mut Vec<[u8; 3]>) -> Result<(), AllocError>
    ensures { OnOk result (runs.new.items
        ≡ with_runs runs.old.items (runs_of (part_or_nothing (option_copied end.entry)))) }
{
    match end {
        Some(key) => push_runs(key.as_octets(), runs),
        None => Ok(()),
    }
}

/// Adds the runs of each part.
fn push_all_runs(parts: &[Key], runs: &mut Vec<[u8; 3]>) -> Result<(), AllocError>
    ensures { OnOk result (runs.new.items ≡ with_runs runs.old.items (runs_of_all parts.now)) }
{
    for part in parts {
        push_runs(part.as_octets(), runs)?;
    }
    Ok(())
}

/// The runs that a plan asks for.
fn choose(alloc: Global, parts: &PartKeys) -> Result<Vec<[u8; 3]>, AllocError>
    ensures { IfOk result (λ v. v.items ≡ asked_runs parts.now) }
{
    let mut runs = Vec::new(alloc);
    push_end_runs(parts.initial(), &mut runs)?;
    push_all_runs(parts.any(), &mut runs)?;
    push_end_runs(parts.last(), &mut runs)?;
    Ok(runs)
}

/// A plan for the posting list of each run.
fn postings_of(alloc: Global, type_id: TypeId, runs: &[[u8; 3]]) -> Result<Vec<Plan>, AllocError>
    ensures { IfOk result (λ v. v.items ≡ run_plans type_id runs.now) }
{
    let mut plans = Vec::with_capacity(alloc, runs.len())?;
    for run in runs {
        plans.push(Plan::Posting(Posting::Run(type_id, *run)))?;
    }
    Ok(plans)
}

/// The posting lists of the runs of the parts that a plan asks for: of the first 64, each once.
pub fn run_postings(
    alloc: Global,
    type_id: TypeId,
    parts: &PartKeys,
) -> Result<Vec<Plan>, AllocError>
    ensures { IfOk result (λ v. v.items ≡ run_plans type_id (asked_runs parts.now)) }
{
    let runs = choose(alloc, parts)?;
    postings_of(alloc, type_id, &runs)
}
