//! Starts a process: for the first time, or again over what its device holds.
ghost use Rattle.std.specs.Prelude.{◌≡◌, ◌<◌, Some, None, is_some, IfOk};
ghost use Rattle.std.specs.Arc.{arc_value};
ghost use Rattle.dir_machine.specs.declared.process.Process.TheVariants.{Down, Unborn};
ghost use Rattle.dir_machine.specs.private.Processes.{IsRefusal, IsStarted};

use crate::crashing::left_on;
use crate::events::{Fates, Faults};
use crate::machine::Machine;
use crate::process::{Left, Process};
use crate::replies::MachineReply;
use dir_node::{Node, NodeConfig, NodeError, NoteError, Refused, ViewStoreError};
use journal::Fault as JournalFault;
use std::alloc::{AllocError, Global};
use std::sync::Arc;
use view_store::MemoryDevice;

/// The configuration of a replica. Its only error is want of memory.
fn config(alloc: Global, machine: &Machine, replica: u64) -> Result<NodeConfig, AllocError>
    ensures schema { IfOk result (λ c. arc_value c.schema ≡ arc_value machine.now.schema) }
    ensures suffix { IfOk result (λ c. c.suffix ≡ machine.now.suffix) }
    ensures cluster { IfOk result (λ c. c.cluster ≡ machine.now.cluster) }
    ensures index { IfOk result (λ c. c.index ≡ replica) }
    ensures count { IfOk result (λ c. c.count ≡ machine.now.count) }
{
    let indexes = machine.indexes.copy(alloc)?;
    let suffix = machine.suffix.copy(alloc)?;
    let schema = Arc::try_clone(&machine.schema)?;
    Ok(NodeConfig {
        schema,
        indexes,
        suffix,
        cluster: machine.cluster,
        index: replica,
        count: machine.count,
    })
}

/// What is shown of a start that was refused.
fn refusal(replica: u64, error: NodeError) -> MachineReply
    ensures { IsRefusal replica result }
{
    match error {
        NodeError::Store(ViewStoreError::DeviceFailed)
        | NodeError::Journal(NoteError::DeviceFailed) => MachineReply::Stopped { replica, error },
        _ => MachineReply::Refused { replica, error },
    }
}

/// The journal's device of a first start, which is empty; none where replicas keep no journal. Its only error is want
/// of memory.
fn first_journal(
    alloc: Global,
    machine: &Machine,
    fault: JournalFault,
) -> Result<Option<journal::MemoryDevice>, AllocError>
    ensures { IfOk result (λ device. is_some device ≡ machine.now.journaled) }
{
    if machine.journaled {
        let device = journal::MemoryDevice::new(alloc, Vec::new(alloc), machine.room, fault)?;
        Ok(Some(device))
    } else {
        Ok(None)
    }
}

/// A process starts for the first time: whatever the pair's device holds is written over. Its only error is want of
/// memory.
fn start_first(
    alloc: Global,
    machine: &Machine,
    replica: u64,
    image: Vec<u8>,
    faults: Faults,
    fates: Fates,
) -> Result<(Process, MachineReply), AllocError>
    requires { replica < machine.now.count }
    ensures { IfOk result (λ x. IsStarted machine.now replica (Unborn image) x.0 x.1) }
{
    let config = config(alloc, machine, replica)?;
    let device = MemoryDevice::new(alloc, image, machine.room, faults.pair)?;
    let journal = first_journal(alloc, machine, faults.journal)?;
    match Node::fresh(alloc, device, journal, config) {
        Ok((node, outputs)) => {
            let restarts = node.restarts();
            Ok((
                Process::Up { node, fates },
                MachineReply::Started {
                    replica,
                    restarts,
                    outputs,
                },
            ))
        }
        Err(refused) => {
            let Refused {
                error,
                device,
                journal: _,
            } = refused;
            let image = device.left_by_crash(alloc, fates.pair)?;
            Ok((Process::Unborn { image }, refusal(replica, error)))
        }
    }
}

/// A process without a journal starts again over what its device holds. Its only error is want of memory.
fn start_alone(
    alloc: Global,
    machine: &Machine,
    replica: u64,
    image: Vec<u8>,
    faults: Faults,
    fates: Fates,
) -> Result<(Process, MachineReply), AllocError>
    requires { replica < machine.now.count }
    ensures { IfOk result (λ x. IsStarted machine.now replica (Down (record { image = image; journal = None })) x.0
        x.1) }
{
    let config = config(alloc, machine, replica)?;
    let device = MemoryDevice::new(alloc, image, machine.room, faults.pair)?;
    match Node::reopen(alloc, device, None, config) {
        Ok((node, outputs)) => {
            let restarts = node.restarts();
            Ok((
                Process::Up { node, fates },
                MachineReply::Started {
                    replica,
                    restarts,
                    outputs,
                },
            ))
        }
        Err(refused) => {
            let Refused {
                error,
                device,
                journal: _,
            } = refused;
            let image = device.left_by_crash(alloc, fates.pair)?;
            let left = Left {
                image,
                journal: None,
            };
            Ok((Process::Down { left }, refusal(replica, error)))
        }
    }
}

/// A process starts again over its journal and what its device holds. Its only error is want of memory.
fn start_over(
    alloc: Global,
    machine: &Machine,
    replica: u64,
    image: Vec<u8>,
    octets: Vec<u8>,
    faults: Faults,
    fates: Fates,
) -> Result<(Process, MachineReply), AllocError>
    requires { replica < machine.now.count }
    ensures { IfOk result (λ x. IsStarted machine.now replica (Down (record { image = image; journal = Some octets }))
        x.0 x.1) }
{
    let config = config(alloc, machine, replica)?;
    let device = MemoryDevice::new(alloc, image, machine.room, faults.pair)?;
    let journal = journal::MemoryDevice::new(alloc, octets, machine.room, faults.journal)?;
    match Node::reopen(alloc, device, Some(journal), config) {
        Ok((node, outputs)) => {
            let restarts = node.restarts();
            Ok((
                Process::Up { node, fates },
                MachineReply::Started {
                    replica,
                    restarts,
                    outputs,
                },
            ))
        }
        Err(refused) => {
            let Refused {
                error,
                device,
                journal,
            } = refused;
            let left = left_on(alloc, &device, &journal, fates)?;
            Ok((Process::Down { left }, refusal(replica, error)))
        }
    }
}

/// A process starts again over what its devices hold. Its only error is want of memory.
fn start_again(
    alloc: Global,
    machine: &Machine,
    replica: u64,
    left: Left,
    faults: Faults,
    fates: Fates,
) -> Result<(Process, MachineReply), AllocError>
    requires { replica < machine.now.count }
    ensures { IfOk result (λ x. IsStarted machine.now replica (Down left) x.0 x.1) }
{
    let Left { image, journal } = left;
    match journal {
        None => start_alone(alloc, machine, replica, image, faults, fates),
        Some(octets) => start_over(alloc, machine, replica, image, octets, faults, fates),
    }
}

/// A process starts, if it isn't up. Its only error is want of memory.
pub fn start(
    alloc: Global,
    machine: &Machine,
    process: Process,
    replica: u64,
    faults: Faults,
    fates: Fates,
) -> Result<(Process, MachineReply), AllocError>
    requires { replica < machine.now.count }
    ensures { IfOk result (λ x. IsStarted machine.now replica process x.0 x.1) }
{
    match process {
        Process::Unborn { image } => start_first(alloc, machine, replica, image, faults, fates),
        Process::Down { left } => start_again(alloc, machine, replica, left, faults, fates),
        Process::Up { node, fates } => Ok((Process::Up { node, fates }, MachineReply::Nothing)),
    }
}
