//! All replicas of a cluster execute what they have committed.
ghost use Rattle.std.specs.Prelude.{◌≡◌, ◌<◌, None, IfOk, OnOk, length, replicate};
ghost use Rattle.std.specs.Arc.{arc_value};
ghost use Rattle.vr_world.specs.Cluster.{world};
ghost use Rattle.dir_lab.specs.private.Executions.{AreOver, IsAdvancedAt, all_caught_up, records_by};

use crate::executions::catch_up;
use crate::lab::Lab;
use state_machine::{Executed, Op};
use std::alloc::{AllocError, Global};
use std::mem::replace;
use vr_world::Cluster;

/// Nothing is kept of so many replicas. Its only error is want of memory.
pub fn none_kept(alloc: Global, count: u64) -> Result<Vec<Option<Executed>>, AllocError>
    ensures { IfOk result (λ kept. kept.items ≡ replicate count None) }
{
    let mut kept = Vec::new(alloc);
    for _ in 0..count {
        kept.push(None)?;
    }
    Ok(kept)
}

/// One replica executes what it has committed. Its only error is want of memory.
fn advance_at(
    alloc: Global,
    lab: &Lab,
    kept: &mut Vec<Option<Executed>>,
    cluster: &Cluster<Op>,
    index: u64,
) -> Result<(), AllocError>
    requires within { index < length kept.old.items }
    requires over { AreOver (arc_value lab.now.schema) lab.now.suffix kept.old.items }
    ensures at { OnOk result (IsAdvancedAt (world cluster.now) kept.old.items index kept.new.items) }
    ensures over { OnOk result (AreOver (arc_value lab.now.schema) lab.now.suffix kept.new.items) }
{
    let before = replace(&mut kept[index as usize], None);
    kept[index as usize] = catch_up(alloc, lab, before, cluster.replica(index))?;
    Ok(())
}

/// Each replica executes what it has committed. Its only error is want of memory.
pub fn advance_all(
    alloc: Global,
    lab: &Lab,
    kept: &mut Vec<Option<Executed>>,
    cluster: &Cluster<Op>,
) -> Result<(), AllocError>
    requires count { length kept.old.items ≡ cluster.now.count }
    requires over { AreOver (arc_value lab.now.schema) lab.now.suffix kept.old.items }
    ensures records { OnOk result (records_by kept.new.items ≡ all_caught_up (records_by kept.old.items)
        (world cluster.now)) }
    ensures count { OnOk result (length kept.new.items ≡ cluster.now.count) }
    ensures over { OnOk result (AreOver (arc_value lab.now.schema) lab.now.suffix kept.new.items) }
{
    for index in 0..cluster.count {
        advance_at(alloc, lab, kept, cluster, index)?;
    }
    Ok(())
}
