//! Plays one event after the other.
ghost use Rattle.std.specs.Prelude.{◌≡◌, ◌++◌, ◌∷◌, ◌<◌, [], List, IfOk, OnOk, length};
ghost use Rattle.dir_machine.specs.declared.events.MachineEvent.TheVariants as kinds;
ghost use Rattle.dir_machine.specs.private.Processes.{IsNew};
ghost use Rattle.dir_machine.specs.private.Running.{AreNew, GoesOn, IsNothingShown, Laws};

use crate::asking::{ask, tell};
use crate::crashing::crash;
use crate::events::{Fates, Faults, Given, MachineEvent, Place};
use crate::framing::write;
use crate::giving::{give_all, give_one};
use crate::machine::Machine;
use crate::network::{asked, asked_all};
use crate::process::Process;
use crate::reading::{compare, search};
use crate::replies::MachineReply;
use crate::starting::start;
use dir_node::{Client, Op};
use dir_search::{CompareRequest, SearchRequest};
use log_journal::one_is_told;
use std::alloc::{AllocError, Global};
use std::mem::replace;
use vr_state::each_step;
use vr_wire::{FrameSizes, frames_give_message};

/// What a run has so far.
#[derive(Drop)]
pub struct Running {
    /// The process of each replica, by index.
    pub processes: Vec<Process>,
    /// What was shown of each event.
    pub shown: Vec<MachineReply>,
}

/// A process that was never up, over an empty device.
fn no_process(alloc: Global) -> Process
    ensures { IsNew result }
{
    Process::Unborn {
        image: Vec::new(alloc),
    }
}

#[tactic(auto, using(crate::proofs::Processes::none_new, crate::proofs::Processes::one_new))]
/// So many processes, none of which was ever up. Its only error is want of memory.
fn unborn(alloc: Global, count: u64) -> Result<Vec<Process>, AllocError>
    ensures { IfOk result (λ processes. AreNew count processes.items) }
{
    let mut processes = Vec::new(alloc);
    for _ in 0..count {
        processes.push(no_process(alloc))?;
    }
    Ok(processes)
}

/// A run at its start. Its only error is want of memory.
pub fn begin(alloc: Global, machine: &Machine) -> Result<Running, AllocError>
    ensures processes { IfOk result (λ run. AreNew machine.now.count run.processes.items) }
    ensures shown { IfOk result (λ run. run.shown.items ≡ []) }
{
    Ok(Running {
        processes: unborn(alloc, machine.count)?,
        shown: Vec::new(alloc),
    })
}

/// Shows that nothing was there. Its only error is want of memory.
fn show_nothing(run: &mut Running) -> Result<(), AllocError>
    ensures { OnOk result (IsNothingShown run.old run.new) }
{
    run.shown.push(MachineReply::Nothing)?;
    Ok(())
}

/// The laws of journals and of steps that a process which ends or starts again rests on, and of frames.
fn laws()
    ensures { Laws }
{
    each_step::<Op>();
    one_is_told();
    frames_give_message();
}

/// A node that is up handles one event. Its only error is want of memory.
fn give(
    alloc: Global,
    machine: &Machine,
    run: &mut Running,
    replica: u64,
    given: Given,
) -> Result<(), AllocError>
    requires { length run.old.processes.items ≡ machine.now.count }
    ensures { OnOk result (GoesOn machine.now (kinds.Give replica given) run.old run.new) }
{
    if machine.count <= replica {
        return show_nothing(run);
    }
    laws();
    match asked(alloc, machine.cluster, run.shown.as_slice(), replica, given)? {
        None => show_nothing(run),
        Some(event) => {
            let before = replace(&mut run.processes[replica as usize], no_process(alloc));
            let (after, reply) = give_one(alloc, before, replica, event)?;
            run.processes[replica as usize] = after;
            run.shown.push(reply)?;
            Ok(())
        }
    }
}

/// A node that is up handles a batch of events. Its only error is want of memory.
fn give_batch(
    alloc: Global,
    machine: &Machine,
    run: &mut Running,
    replica: u64,
    given: Vec<Given>,
) -> Result<(), AllocError>
    requires { length run.old.processes.items ≡ machine.now.count }
    ensures { OnOk result (GoesOn machine.now (kinds.GiveAll replica given) run.old run.new) }
{
    if machine.count <= replica {
        return show_nothing(run);
    }
    laws();
    match asked_all(alloc, machine.cluster, run.shown.as_slice(), replica, given)? {
        None => show_nothing(run),
        Some(events) => {
            let before = replace(&mut run.processes[replica as usize], no_process(alloc));
            let (after, reply) = give_all(alloc, before, replica, events)?;
            run.processes[replica as usize] = after;
            run.shown.push(reply)?;
            Ok(())
        }
    }
}

/// A message is written as frames. Its only error is want of memory.
fn write_one(
    alloc: Global,
    machine: &Machine,
    run: &mut Running,
    place: Place,
    sizes: FrameSizes,
) -> Result<(), AllocError>
    ensures { OnOk result (GoesOn machine.now (kinds.Write place sizes) run.old run.new) }
{
    let reply = write(alloc, machine.cluster, run.shown.as_slice(), place, sizes)?;
    run.shown.push(reply)?;
    Ok(())
}

/// A process ends. Its only error is want of memory.
fn end(
    alloc: Global,
    machine: &Machine,
    run: &mut Running,
    replica: u64,
    fates: Fates,
) -> Result<(), AllocError>
    requires { length run.old.processes.items ≡ machine.now.count }
    ensures { OnOk result (GoesOn machine.now (kinds.Crash replica fates) run.old run.new) }
{
    if machine.count <= replica {
        return show_nothing(run);
    }
    laws();
    let before = replace(&mut run.processes[replica as usize], no_process(alloc));
    let (after, reply) = crash(alloc, before, replica, fates)?;
    run.processes[replica as usize] = after;
    run.shown.push(reply)?;
    Ok(())
}

/// A process starts. Its only error is want of memory.
fn start_one(
    alloc: Global,
    machine: &Machine,
    run: &mut Running,
    replica: u64,
    faults: Faults,
    fates: Fates,
) -> Result<(), AllocError>
    requires { length run.old.processes.items ≡ machine.now.count }
    ensures { OnOk result (GoesOn machine.now (kinds.Start replica faults fates) run.old run.new) }
{
    if machine.count <= replica {
        return show_nothing(run);
    }
    laws();
    let before = replace(&mut run.processes[replica as usize], no_process(alloc));
    let (after, reply) = start(alloc, machine, before, replica, faults, fates)?;
    run.processes[replica as usize] = after;
    run.shown.push(reply)?;
    Ok(())
}

/// A node is asked what became of a request. Its only error is want of memory.
fn ask_one(
    alloc: Global,
    machine: &Machine,
    run: &mut Running,
    replica: u64,
    client: Client,
    number: u64,
) -> Result<(), AllocError>
    requires { length run.old.processes.items ≡ machine.now.count }
    ensures { OnOk result (GoesOn machine.now (kinds.Ask replica client number) run.old run.new) }
{
    if machine.count <= replica {
        return show_nothing(run);
    }
    each_step::<Op>();
    let reply = ask(
        alloc,
        &run.processes[replica as usize],
        replica,
        client,
        number,
    )?;
    run.shown.push(reply)?;
    Ok(())
}

/// A node is asked a search. Its only error is want of memory.
fn search_one(
    alloc: Global,
    machine: &Machine,
    run: &mut Running,
    replica: u64,
    named: u64,
    request: SearchRequest,
) -> Result<(), AllocError>
    requires { length run.old.processes.items ≡ machine.now.count }
    ensures { OnOk result (GoesOn machine.now (kinds.Search replica named request) run.old run.new) }
{
    if machine.count <= replica {
        return show_nothing(run);
    }
    let reply = search(
        alloc,
        &run.processes[replica as usize],
        replica,
        named,
        &request,
    );
    run.shown.push(reply)?;
    Ok(())
}

/// A node is asked a compare. Its only error is want of memory.
fn compare_one(
    alloc: Global,
    machine: &Machine,
    run: &mut Running,
    replica: u64,
    named: u64,
    request: CompareRequest,
) -> Result<(), AllocError>
    requires { length run.old.processes.items ≡ machine.now.count }
    ensures { OnOk result (GoesOn machine.now (kinds.Compare replica named request) run.old run.new) }
{
    if machine.count <= replica {
        return show_nothing(run);
    }
    let reply = compare(
        alloc,
        &run.processes[replica as usize],
        replica,
        named,
        &request,
    );
    run.shown.push(reply)?;
    Ok(())
}

/// A node is asked how far it is. Its only error is want of memory.
fn tell_one(machine: &Machine, run: &mut Running, replica: u64) -> Result<(), AllocError>
    requires { length run.old.processes.items ≡ machine.now.count }
    ensures { OnOk result (GoesOn machine.now (kinds.State replica) run.old run.new) }
{
    if machine.count <= replica {
        return show_nothing(run);
    }
    let reply = tell(&run.processes[replica as usize], replica);
    run.shown.push(reply)?;
    Ok(())
}

/// One event. Its only error is want of memory.
pub fn take_event(
    alloc: Global,
    machine: &Machine,
    run: &mut Running,
    event: MachineEvent,
) -> Result<(), AllocError>
    requires { length run.old.processes.items ≡ machine.now.count }
    ensures { OnOk result (GoesOn machine.now event run.old run.new) }
{
    match event {
        MachineEvent::Give { replica, given } => give(alloc, machine, run, replica, given),
        MachineEvent::GiveAll { replica, given } => give_batch(alloc, machine, run, replica, given),
        MachineEvent::Write { place, sizes } => write_one(alloc, machine, run, place, sizes),
        MachineEvent::Crash { replica, fates } => end(alloc, machine, run, replica, fates),
        MachineEvent::Start {
            replica,
            faults,
            fates,
        } => start_one(alloc, machine, run, replica, faults, fates),
        MachineEvent::Ask {
            replica,
            client,
            number,
        } => ask_one(alloc, machine, run, replica, client, number),
        MachineEvent::Search {
            replica,
            named,
            request,
        } => search_one(alloc, machine, run, replica, named, request),
        MachineEvent::Compare {
            replica,
            named,
            request,
        } => compare_one(alloc, machine, run, replica, named, request),
        MachineEvent::State { replica } => tell_one(machine, run, replica),
    }
}
