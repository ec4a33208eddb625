//! Puts one replica together and runs it: a node, its clock and its files, under the threads of `server_threads`.
//!
//! `opening` opens the node over its files, `ticking` puts it with its clock behind `Engine`, `serving` joins them to
//! the threads, and `runtime` names what these ask of the system. `peer_queues` queues what the node sends, except a
//! GETSTATE while the answer to an earlier one may be on its way.
#![tactic(auto)]

mod opening;
mod options;
mod peer_queues;
mod runtime;
mod serving;
mod telling;
mod ticking;

pub use node_gate::{Cluster, NodeConfig};
pub use options::{Options, Times};
pub use runtime::ServerRuntime;
pub use server_threads::{
    Address, Build, Limits, Logs, ReplicaAddresses, ServerError, Terms, takes_a_line,
};
pub use serving::serve;
