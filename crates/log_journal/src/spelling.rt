//! Octets of updates that are read as the same update again, and whether two updates are equal. An update in memory may
//! be one that no octets spell.
ghost use Rattle.std.specs.Prelude.{◌≡◌, ◌<◌, ◌^◌, length, IsTrue, IfOk, IfErr, IfSome};
ghost use Rattle.std.specs.Bool.{OnFalse};
ghost use Rattle.ldap_op.specs.Grammar.{IsOp};
ghost use Rattle.ldap_op.specs.Written.{HasNoSpelling, op_bytes};
ghost use Rattle.log_journal.specs.private.Apart.{AreUpdatesApart};

use crate::error::NoteError;
use ldap_op::{Op, one_op};

/// The octets of an update, which are read as this update and no other. E3 where it has no spelling.
pub fn spell(op: &Op) -> Result<&[u8], NoteError>
    ensures octets { IfOk result (λ octets. IsOp op.now octets.now) }
    ensures written { IfOk result (λ octets. octets.now ≡ op_bytes op.now) }
    ensures unwritable { IfErr result (λ e. (e ≡ NoteError.Unwritable) × HasNoSpelling op.now) }
{
    match op.octets() {
        Some(octets) => Ok(octets),
        None => Err(NoteError::Unwritable),
    }
}

/// Whether two updates are found equal, by their octets. Equal ones may not be found so, where no octets are read as
/// them.
pub fn is_same(one: &Op, other: &Op) -> bool
    ensures same { IsTrue result → one.now ≡ other.now }
    ensures apart { OnFalse result (AreUpdatesApart one.now other.now) }
{
    one_op();
    match (one.octets(), other.octets()) {
        (Some(a), Some(b)) => a == b,
        _ => false,
    }
}

/// How many octets an update has that are read as it; none where it has no spelling.
pub fn octets_of(op: &Op) -> Option<usize>
    ensures octets { IfSome result (λ n. n ≡ length (op_bytes op.now)) }
    ensures small { IfSome result (λ n. n < 2 ^ 63) }
{
    match op.octets() {
        Some(octets) => Some(octets.len()),
        None => None,
    }
}
