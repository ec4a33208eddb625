//! Asks a node what became of a request, and how far it is.
ghost use Rattle.std.specs.Prelude.{◌≡◌, IfOk};
ghost use Rattle.dir_node.specs.Outcomes.{outcome_view};
ghost use Rattle.dir_machine.specs.Shown.{became_view};
ghost use Rattle.dir_machine.specs.private.Processes.{IsAnswered, IsToldOf};

use crate::process::Process;
use crate::replies::{Became, MachineReply};
use dir_node::{Client, Outcome};
use std::alloc::{AllocError, Global};

/// An outcome in memory of its own. Its only error is want of memory.
fn became(alloc: Global, outcome: Outcome<'_>) -> Result<Became, AllocError>
    ensures { IfOk result (λ b. became_view b ≡ outcome_view outcome.entry) }
{
    match outcome {
        Outcome::Done { number, reply } => Ok(Became::Done {
            number,
            reply: reply.copy(alloc)?,
        }),
        Outcome::Pending => Ok(Became::Pending),
        Outcome::Stale => Ok(Became::Stale),
        Outcome::Lost => Ok(Became::Lost),
    }
}

/// What became of a client's request, by the node of a process. Its only error is want of memory.
pub fn ask(
    alloc: Global,
    process: &Process,
    replica: u64,
    client: Client,
    number: u64,
) -> Result<MachineReply, AllocError>
    ensures { IfOk result (λ x. IsAnswered replica client number process.now x) }
{
    match process {
        Process::Up { node, fates: _ } => Ok(MachineReply::Outcome {
            replica,
            became: became(alloc, node.outcome(client, number))?,
        }),
        Process::Unborn { image: _ } | Process::Down { left: _ } => Ok(MachineReply::Nothing),
    }
}

/// How far the node of a process is.
pub fn tell(process: &Process, replica: u64) -> MachineReply
    ensures { IsToldOf replica process.now result }
{
    match process {
        Process::Up { node, fates: _ } => MachineReply::Standing {
            replica,
            view_number: node.view_number(),
            standing: node.standing(),
            op_number: node.log_len(),
            commit_number: node.commit_number(),
        },
        Process::Unborn { image: _ } | Process::Down { left: _ } => MachineReply::Nothing,
    }
}
