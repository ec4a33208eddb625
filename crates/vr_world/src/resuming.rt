// A replica that is down goes on from its journal: in its stored view, with the log that it had. It sends nothing at
// first. How a journal is written isn't said here.
ghost use Rattle.std.specs.Prelude.{◌≡◌, OnOk};
ghost use Rattle.vr_state.specs.Views.{state};
ghost use Rattle.vr_world.specs.private.Acts.{resumed_at};
ghost use Rattle.vr_world.specs.Cluster.{world};
ghost use Rattle.vr_world.specs.World.{kept_of};

use crate::cluster::Cluster;
use crate::moving::{keep_up, take_kept};
use crate::returning::is_up;
use std::alloc::{AllocError, Global};
use vr_state::message::Change;
use vr_state::replica::Replica;
use vr_state::standing::is_recovering;

/// What a journal keeps of a replica that crashes.
pub fn kept_of<P: Drop>(replica: Replica<P>) -> Option<Change<P>>
    ensures { result ≡ kept_of (state replica) }
{
    if is_recovering(&replica) {
        None
    } else {
        Some(replica.into_change())
    }
}

/// A replica goes on from its journal, if it is down and has one. Its only error is want of memory.
pub fn resume_with<P: Drop>(
    alloc: Global,
    cluster: &mut Cluster<P>,
    index: u64,
    commit_number: u64,
) -> Result<(), AllocError>
    ensures world { OnOk result (world cluster.new ≡ resumed_at cluster.old index commit_number) }
    ensures count { cluster.new.count ≡ cluster.old.count }
{
    if cluster.count <= index || is_up(cluster, index) {
        return Ok(());
    }
    match take_kept(cluster, index) {
        None => Ok(()),
        Some(kept) => {
            let view_number = cluster.stored[index as usize];
            let replica = Replica::resuming(
                alloc,
                index,
                cluster.count,
                view_number,
                commit_number,
                kept,
            )?;
            keep_up(cluster, replica, None);
            Ok(())
        }
    }
}
