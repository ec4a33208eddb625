//! Gives a process events, one or a batch.
ghost use Rattle.std.specs.Prelude.{[], ◌∷◌, IfOk};
ghost use Rattle.dir_machine.specs.private.Processes.{IsGiven, IsStopped};

use crate::crashing::left_of;
use crate::events::Fates;
use crate::process::{MemoryNode, Process};
use crate::replies::MachineReply;
use dir_node::{AllHandled, Event, Handled, NodeError, Op};
use std::alloc::{AllocError, Global};

/// The process of a node whose device failed inside a call: it ends there. Its only error is want of memory for what is
/// left.
fn stopped(
    alloc: Global,
    node: MemoryNode,
    fates: Fates,
    replica: u64,
    error: NodeError,
) -> Result<(Process, MachineReply), AllocError>
    ensures { IfOk result (λ x. IsStopped replica node error x.0 x.1) }
{
    let left = left_of(alloc, node, fates)?;
    Ok((
        Process::Down { left },
        MachineReply::Stopped { replica, error },
    ))
}

/// A process is given one event. Its only error is want of memory for what is shown, or left.
pub fn give_one(
    alloc: Global,
    process: Process,
    replica: u64,
    event: Event<Op>,
) -> Result<(Process, MachineReply), AllocError>
    ensures { IfOk result (λ x. IsGiven replica (event ∷ []) process x.0 x.1) }
{
    match process {
        Process::Up { node, fates } => {
            let mut node = node;
            match node.handle(alloc, event) {
                Ok(handled) => {
                    let Handled { outputs, behind } = handled;
                    let mut given = Vec::new(alloc);
                    given.push(Ok(outputs))?;
                    Ok((
                        Process::Up { node, fates },
                        MachineReply::Handled {
                            replica,
                            given,
                            behind,
                        },
                    ))
                }
                Err(NodeError::NoMemory) => Ok((
                    Process::Up { node, fates },
                    MachineReply::Refused {
                        replica,
                        error: NodeError::NoMemory,
                    },
                )),
                Err(error) => stopped(alloc, node, fates, replica, error),
            }
        }
        Process::Unborn { image } => Ok((Process::Unborn { image }, MachineReply::Nothing)),
        Process::Down { left } => Ok((Process::Down { left }, MachineReply::Nothing)),
    }
}

/// A process is given a batch of events. Its only error is want of memory for what is left.
pub fn give_all(
    alloc: Global,
    process: Process,
    replica: u64,
    events: Vec<Event<Op>>,
) -> Result<(Process, MachineReply), AllocError>
    ensures { IfOk result (λ x. IsGiven replica events.items process x.0 x.1) }
{
    match process {
        Process::Up { node, fates } => {
            let mut node = node;
            match node.handle_all(alloc, events) {
                Ok(handled) => {
                    let AllHandled { outputs, behind } = handled;
                    Ok((
                        Process::Up { node, fates },
                        MachineReply::Handled {
                            replica,
                            given: outputs,
                            behind,
                        },
                    ))
                }
                Err(NodeError::NoMemory) => Ok((
                    Process::Up { node, fates },
                    MachineReply::Refused {
                        replica,
                        error: NodeError::NoMemory,
                    },
                )),
                Err(error) => stopped(alloc, node, fates, replica, error),
            }
        }
        Process::Unborn { image } => Ok((Process::Unborn { image }, MachineReply::Nothing)),
        Process::Down { left } => Ok((Process::Down { left }, MachineReply::Nothing)),
    }
}
