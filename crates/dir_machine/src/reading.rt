//! Searches and compares of what a node has executed.
ghost use Rattle.std.specs.Prelude.{◌≡◌, IfOk};
ghost use Rattle.dir_search.specs.Answer.{answer};
ghost use Rattle.dir_search.specs.Compared.{compared};
ghost use Rattle.dir_search.specs.directory_api.View.{answer_view, reply_view};
ghost use Rattle.dir_search.specs.ldap_msg.View.{compare_view, search_view};
ghost use Rattle.state_machine.specs.Executing.{directory_at};
ghost use Rattle.dir_machine.specs.private.Processes.{IsCompared, IsSearched};

use crate::process::{MemoryNode, Process};
use crate::replies::MachineReply;
use dir_node::{NodeError, Reply};
use dir_search::{CompareRequest, SearchAnswer, SearchRequest};
use std::alloc::{AllocError, Global};

/// The answer of a search over what a node has executed. Its only error is want of memory.
fn answer_of(
    alloc: Global,
    node: &MemoryNode,
    request: &SearchRequest,
) -> Result<SearchAnswer, AllocError>
    ensures { IfOk result (λ a. answer_view a ≡ answer (directory_at node.now.executed) (search_view request.now)) }
{
    dir_search::search(alloc, &node.store().reading(), request)
}

/// The reply of a compare over what a node has executed. Its only error is want of memory.
fn reply_of(alloc: Global, node: &MemoryNode, request: &CompareRequest) -> Result<Reply, AllocError>
    ensures { IfOk result (λ r. reply_view r ≡ compared (directory_at node.now.executed) (compare_view request.now)) }
{
    dir_search::compare(alloc, &node.store().reading(), request)
}

/// A search at the node of a process, after this many updates at least.
pub fn search(
    alloc: Global,
    process: &Process,
    replica: u64,
    named: u64,
    request: &SearchRequest,
) -> MachineReply
    ensures { IsSearched replica named (search_view request.now) process.now result }
{
    match process {
        Process::Up { node, fates: _ } => {
            let number = node.executed_len() as u64;
            if number < named {
                return MachineReply::NotYet { replica, number };
            }
            match answer_of(alloc, node, request) {
                Ok(answer) => MachineReply::Found {
                    replica,
                    number,
                    answer,
                },
                Err(_) => MachineReply::Refused {
                    replica,
                    error: NodeError::NoMemory,
                },
            }
        }
        Process::Unborn { image: _ } | Process::Down { left: _ } => MachineReply::Nothing,
    }
}

/// A compare at the node of a process, after this many updates at least.
pub fn compare(
    alloc: Global,
    process: &Process,
    replica: u64,
    named: u64,
    request: &CompareRequest,
) -> MachineReply
    ensures { IsCompared replica named (compare_view request.now) process.now result }
{
    match process {
        Process::Up { node, fates: _ } => {
            let number = node.executed_len() as u64;
            if number < named {
                return MachineReply::NotYet { replica, number };
            }
            match reply_of(alloc, node, request) {
                Ok(reply) => MachineReply::Compared {
                    replica,
                    number,
                    reply,
                },
                Err(_) => MachineReply::Refused {
                    replica,
                    error: NodeError::NoMemory,
                },
            }
        }
        Process::Unborn { image: _ } | Process::Down { left: _ } => MachineReply::Nothing,
    }
}
