//! Runs a lab: one event after the other.
ghost use Rattle.std.specs.Prelude.{◌≡◌, ◌<◌, [], IfOk, OnOk};
ghost use Rattle.std.specs.Arc.{arc_value};
ghost use Rattle.vr_world.specs.Cluster.{world};
ghost use Rattle.vr_world.specs.World.{start};
ghost use Rattle.dir_lab.specs.private.Executions.{IsNext, IsRunning, records_by};
ghost use Rattle.dir_lab.specs.declared.events.LabEvent.TheVariants as kinds;

use crate::advancing::{advance_all, none_kept};
use crate::asking::standing;
use crate::events::{LabEvent, LabReply};
use crate::lab::Lab;
use crate::searching::search_at;
use crate::telling::{show_replies, since};
use dir_search::SearchRequest;
use state_machine::{Executed, Op};
use std::alloc::{AllocError, Global};
use vr_world::{Cluster, WorldEvent};

/// What a run has so far.
#[derive(Drop)]
pub struct LabRun {
    /// The replicas, and all that was ever sent and answered.
    pub cluster: Cluster<Op>,
    /// What each replica has executed, by index.
    pub kept: Vec<Option<Executed>>,
    pub shown: Vec<LabReply>,
}

/// A run at its start. Its only error is want of memory.
pub fn begin(alloc: Global, lab: &Lab) -> Result<LabRun, AllocError>
    ensures running { IfOk result (λ run. IsRunning (arc_value lab.now.schema) lab.now.suffix lab.now.count run) }
    ensures world { IfOk result (λ run. world run.cluster ≡ start lab.now.count) }
    ensures records { IfOk result (λ run. records_by run.kept.items ≡ (λ i. [])) }
    ensures shown { IfOk result (λ run. run.shown.items ≡ []) }
{
    let cluster = Cluster::first(alloc, lab.count)?;
    let kept = none_kept(alloc, lab.count)?;
    Ok(LabRun {
        cluster,
        kept,
        shown: Vec::new(alloc),
    })
}

/// Something happens: the replicas execute what they have committed by then, and the replies that were given are shown.
/// Its only error is want of memory.
fn happen(
    alloc: Global,
    lab: &Lab,
    run: &mut LabRun,
    event: WorldEvent<Op>,
) -> Result<(), AllocError>
    requires { IsRunning (arc_value lab.now.schema) lab.now.suffix lab.now.count run.old }
    ensures running { OnOk result (IsRunning (arc_value lab.now.schema) lab.now.suffix lab.now.count run.new) }
    ensures next { OnOk result (IsNext (arc_value lab.now.schema) lab.now.suffix lab.now.count run.old run.new
        (kinds.Happens event)) }
{
    let before = run.cluster.replies.len();
    run.cluster.happen(alloc, event)?;
    advance_all(alloc, lab, &mut run.kept, &run.cluster)?;
    let cluster = &run.cluster;
    let given = since(cluster.replies.as_slice(), before);
    show_replies(lab, &mut run.shown, run.kept.as_slice(), given)
}

/// A replica is asked a search. Its only error is want of memory.
fn ask_search(
    alloc: Global,
    lab: &Lab,
    run: &mut LabRun,
    index: u64,
    named: u64,
    request: &SearchRequest,
) -> Result<(), AllocError>
    requires { IsRunning (arc_value lab.now.schema) lab.now.suffix lab.now.count run.old }
    ensures running { OnOk result (IsRunning (arc_value lab.now.schema) lab.now.suffix lab.now.count run.new) }
    ensures next { OnOk result (IsNext (arc_value lab.now.schema) lab.now.suffix lab.now.count run.old run.new
        (kinds.Search index named request.now)) }
{
    if index < lab.count {
        let replica = run.cluster.replica(index);
        let answer = search_at(
            alloc,
            lab,
            &run.kept[index as usize],
            replica,
            named,
            request,
        )?;
        run.shown.push(answer)?;
    }
    Ok(())
}

/// A replica is asked for its state. Its only error is want of memory.
fn ask_state(lab: &Lab, run: &mut LabRun, index: u64) -> Result<(), AllocError>
    requires { IsRunning (arc_value lab.now.schema) lab.now.suffix lab.now.count run.old }
    ensures running { OnOk result (IsRunning (arc_value lab.now.schema) lab.now.suffix lab.now.count run.new) }
    ensures next { OnOk result (IsNext (arc_value lab.now.schema) lab.now.suffix lab.now.count run.old run.new
        (kinds.State index)) }
{
    if index < lab.count {
        let told = standing(index, run.cluster.replica(index));
        run.shown.push(told)?;
    }
    Ok(())
}

/// One event, or one question. Its only error is want of memory.
pub fn take_event(
    alloc: Global,
    lab: &Lab,
    run: &mut LabRun,
    event: LabEvent,
) -> Result<(), AllocError>
    requires { IsRunning (arc_value lab.now.schema) lab.now.suffix lab.now.count run.old }
    ensures running { OnOk result (IsRunning (arc_value lab.now.schema) lab.now.suffix lab.now.count run.new) }
    ensures next { OnOk result (IsNext (arc_value lab.now.schema) lab.now.suffix lab.now.count run.old run.new event) }
{
    match event {
        LabEvent::Happens { event } => happen(alloc, lab, run, event),
        LabEvent::Search {
            replica,
            named,
            request,
        } => ask_search(alloc, lab, run, replica, named, &request),
        LabEvent::State { replica } => ask_state(lab, run, replica),
    }
}
