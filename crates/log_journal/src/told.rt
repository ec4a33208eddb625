//! What a journal tells: whose it is, the last start, and what is kept of the replica.
ghost use Rattle.std.specs.Prelude.{◌≡◌};
ghost use Rattle.log_journal.specs.Told.{nothing_told};
ghost use Rattle.log_journal.specs.Views.{told_view};

use ldap_op::Op;
use std::alloc::Global;
use vr_state::log::Log;

/// What a journal tells.
#[derive(Drop)]
pub struct Told {
    /// The cluster that it is of.
    pub cluster: u64,
    /// The replica's index among all, from 0.
    pub index: u64,
    /// How many replicas there are.
    pub count: u64,
    /// How often the replica was started.
    pub restarts: u64,
    pub view_number: u64,
    pub last_normal_view: u64,
    pub log: Log<Op>,
    pub commit_number: u64,
    /// Records that wait to be adopted.
    pub staged: Log<Op>,
    /// Whether the replica can go on from this: it has adopted a log since it last began to recover.
    pub is_whole: bool,
}

/// Nothing is told: a replica in its first view, with nothing. It takes no memory.
pub fn nothing_told(alloc: Global) -> Told
    ensures { told_view result ≡ nothing_told }
{
    Told {
        cluster: 0,
        index: 0,
        count: 0,
        restarts: 0,
        view_number: 0,
        last_normal_view: 0,
        log: Log::new(alloc),
        commit_number: 0,
        staged: Log::new(alloc),
        is_whole: true,
    }
}
