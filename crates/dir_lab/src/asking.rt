//! Shows a replica's state.
ghost use Rattle.std.specs.Prelude.{◌≡◌};
ghost use Rattle.std.specs.Option.{option_map};
ghost use Rattle.vr_state.specs.Views.{state};
ghost use Rattle.dir_lab.specs.Shown.{shown_view, standing};

use crate::events::LabReply;
use state_machine::Op;
use vr_state::replica::Replica;

/// What is shown of the state of a replica with this index.
pub fn standing(index: u64, replica: Option<&Replica<Op>>) -> LabReply
    ensures { shown_view result ≡ standing index (option_map (λ r. state r.now) replica.entry) }
{
    match replica {
        None => LabReply::Down { replica: index },
        Some(replica) => LabReply::Standing {
            replica: index,
            view_number: replica.view_number,
            status: replica.status,
            op_number: replica.log.len() as u64,
            commit_number: replica.commit_number,
        },
    }
}
