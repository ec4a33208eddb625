//! Says of a message beforehand whether it may ask for an update.
ghost use Rattle.std.specs.Prelude.{◌≡◌};
ghost use Rattle.request_checks.specs.ldap_msg.View.{view};
ghost use Rattle.session_handler.specs.Waiting.{is_manager, is_update, may_update};

use crate::state::State;
use request_checks::{Identity, Message, ProtocolOp, is_update, judge, kind_of};

/// Whether a session is the manager's.
fn is_manager(identity: Identity) -> bool
    ensures { result ≡ is_manager identity }
{
    match identity {
        Identity::Anonymous => false,
        Identity::Manager => true,
    }
}

/// Whether a message is an update, and its controls don't refuse it.
fn is_update_in_order(message: &Message) -> bool
    ensures { result ≡ is_update (view message.now).controls (view message.now).op }
{
    match &message.op {
        ProtocolOp::Request(request) => {
            is_update(request) && judge(kind_of(request), &message.controls).is_ok()
        }
        ProtocolOp::Response(_) => false,
    }
}

/// Whether a message may ask for an update: it is one of the manager's, and its controls don't refuse it. It takes no
/// memory, and reads nothing of other messages than who wants them.
pub fn may_update(state: &State, message: &Message) -> bool
    ensures { result ≡ may_update state.now (view message.now) }
{
    is_manager(state.identity) && is_update_in_order(message)
}
