//! Ends a process: what its devices may hold then is kept.
ghost use Rattle.std.specs.Prelude.{IfOk};
ghost use Rattle.view_store.specs.Memory.{MayLeave};
ghost use Rattle.dir_node.specs.Logged.{device_in};
ghost use Rattle.dir_machine.specs.private.Processes.{IsEnded, IsJournalLeft};

use crate::events::Fates;
use crate::process::{Left, MemoryNode, Process};
use crate::replies::MachineReply;
use std::alloc::{AllocError, Global};
use view_store::MemoryDevice;

/// What devices hold once their process has ended. Its only error is want of memory for that.
pub fn left_on(
    alloc: Global,
    device: &MemoryDevice,
    journal: &Option<journal::MemoryDevice>,
    fates: Fates,
) -> Result<Left, AllocError>
    ensures image { IfOk result (λ left. MayLeave device.now.base device.now.events left.image.items) }
    ensures journal { IfOk result (λ left. IsJournalLeft journal.now left.journal) }
{
    let image = device.left_by_crash(alloc, fates.pair)?;
    let journal = match journal {
        Some(device) => Some(device.left_by_crash(alloc, fates.journal)?),
        None => None,
    };
    Ok(Left { image, journal })
}

/// What the devices of a node hold once its process has ended. Its only error is want of memory for that.
pub fn left_of(alloc: Global, node: MemoryNode, fates: Fates) -> Result<Left, AllocError>
    ensures image { IfOk result (λ left. MayLeave node.device.base node.device.events left.image.items) }
    ensures journal { IfOk result (λ left. IsJournalLeft (device_in node.journal) left.journal) }
{
    let (device, journal) = node.into_devices();
    left_on(alloc, &device, &journal, fates)
}

/// A process ends, if it is up. Its only error is want of memory for what is left.
pub fn crash(
    alloc: Global,
    process: Process,
    replica: u64,
    fates: Fates,
) -> Result<(Process, MachineReply), AllocError>
    ensures { IfOk result (λ x. IsEnded replica process x.0 x.1) }
{
    match process {
        Process::Up { node, fates: _ } => {
            let left = left_of(alloc, node, fates)?;
            Ok((Process::Down { left }, MachineReply::Crashed { replica }))
        }
        Process::Unborn { image } => Ok((Process::Unborn { image }, MachineReply::Nothing)),
        Process::Down { left } => Ok((Process::Down { left }, MachineReply::Nothing)),
    }
}
