//! Laws about the definitions, as functions that do nothing but name the laws that they rest on.
ghost use Rattle.dir_node.specs.Returning.{JournalsReturn, RestartIsOfTaken, RestartIsOfTold};

use log_journal::{Device as JournalDevice, one_is_told};
use view_store::Device;

/// A start over a journal that tells a replica, as each crash leaves it (`Node::handle`), goes on as that replica, or
/// recovers. So a journal, a crash at any moment and a start keep the replica's view, its last normal view and its log.
pub fn restart_is_of_told()
    ensures told { RestartIsOfTold }
    ensures taken { RestartIsOfTaken }
{
    one_is_told();
}

/// A node keeps its journal, a crash leaves an image of that, and a start over it makes a node that doesn't recover:
/// its replica is back as it was.
pub fn journals_return<D: Device, J: JournalDevice>()
    ensures { JournalsReturn D J.may_leave }
{
    one_is_told();
}
