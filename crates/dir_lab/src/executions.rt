//! What each replica has executed, by index.
ghost use Rattle.std.specs.Prelude.{◌≡◌, [], Some, IfOk};
ghost use Rattle.std.specs.Option.{option_map};
ghost use Rattle.std.specs.Arc.{arc_value};
ghost use Rattle.vr_state.specs.Views.{state};
ghost use Rattle.dir_lab.specs.private.Executions.{IsOver, caught_up, records_of};

use crate::lab::Lab;
use state_machine::{Executed, Op, Store};
use std::alloc::{AllocError, Global};
use std::sync::Arc;
use vr_state::replica::Replica;

/// Nothing executed, over the lab's schema, indexes and root. Its only error is want of memory.
pub fn nothing(alloc: Global, lab: &Lab) -> Result<Executed, AllocError>
    ensures { IfOk result (λ e. e ≡ record {
      schema = arc_value lab.now.schema;
      suffix = lab.now.suffix;
      indexes =
          lab.now.indexes;
      records = [];
    }) }
{
    let indexes = lab.indexes.copy(alloc)?;
    let suffix = lab.suffix.copy(alloc)?;
    let schema = Arc::try_clone(&lab.schema)?;
    let store = Store::new(alloc, schema, indexes, suffix);
    Ok(Executed::new(alloc, store))
}

/// What is kept of a replica, or nothing yet. Its only error is want of memory.
fn kept_or_nothing(alloc: Global, lab: &Lab, kept: Option<Executed>) -> Result<Executed, AllocError>
    requires { IsOver (arc_value lab.now.schema) lab.now.suffix kept }
    ensures records { IfOk result (λ e. e.records ≡ records_of kept) }
    ensures over { IfOk result (λ e. IsOver (arc_value lab.now.schema) lab.now.suffix (Some e)) }
{
    match kept {
        Some(executed) => Ok(executed),
        None => nothing(alloc, lab),
    }
}

/// What is kept of a replica goes on with what its log has next; of one that is down nothing is kept. Its only error is
/// want of memory.
pub fn catch_up(
    alloc: Global,
    lab: &Lab,
    kept: Option<Executed>,
    replica: Option<&Replica<Op>>,
) -> Result<Option<Executed>, AllocError>
    requires { IsOver (arc_value lab.now.schema) lab.now.suffix kept }
    ensures records { IfOk result (λ o. records_of o ≡ caught_up (records_of kept) (option_map (λ r. state r.now)
        replica.entry)) }
    ensures over { IfOk result (λ o. IsOver (arc_value lab.now.schema) lab.now.suffix o) }
{
    match replica {
        None => Ok(None),
        Some(replica) => {
            let mut executed = kept_or_nothing(alloc, lab, kept)?;
            executed.advance(alloc, replica.log.as_slice(), replica.commit_number)?;
            Ok(Some(executed))
        }
    }
}
