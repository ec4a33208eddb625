//! The outcome of a bind. Plain data.

use crate::identity::Identity;
use ldap_msg::ResultCode;

/// What a bind comes to.
#[derive(Clone, Copy, Debug)]
pub struct Bound {
    /// Who the session is bound as from then on.
    pub identity: Identity,
    pub code: ResultCode,
}
