// Writes octets to a writer, and says whether it took them all.
ghost use Rattle.std.specs.Prelude.{◌≡◌, [], IfSome, IfNone};
ghost use Rattle.std.specs.Io.KnownBytes.{Appends};
ghost use Rattle.ldap_session.specs.Octets.{is_empty, HasWritten};
ghost use Rattle.ldap_session.specs.private.Octets.{WritesSome};

use std::io::{ErrorKind, Write};

/// Writes once, and gives what is left to be written; nothing, where the writer failed.
fn write_some<'a, W: Write>(writer: &mut W, octets: &'a [u8]) -> Option<&'a [u8]>
    ensures some { IfSome result (λ left. WritesSome (W.contents writer.old) (W.contents writer.new) octets.now
        left.now) }
    ensures none { IfNone result (Appends (W.contents writer.old) (W.contents writer.new) []) }
{
    match writer.write(octets) {
        Ok(0) => None,
        Ok(count) => Some(&octets[count..]),
        Err(error) => {
            if error.kind() == ErrorKind::Interrupted {
                Some(octets)
            } else {
                None
            }
        }
    }
}

/// Whether nothing is left.
fn is_done(octets: &[u8]) -> bool
    ensures { result ≡ is_empty octets.now }
{
    octets.is_empty()
}

/// Writes octets; whether the writer took them all. Where it did not, it took a front of them.
pub fn write_octets<W: Write>(writer: &mut W, octets: &[u8]) -> bool
    ensures { HasWritten (W.contents writer.old) (W.contents writer.new) octets.now result }
{
    let mut left = octets;
    for _ in 0..u64::MAX {
        if is_done(left) {
            return true;
        }
        match write_some(writer, left) {
            Some(rest) => left = rest,
            None => return false,
        }
    }
    false
}

/// Sees to it that what is written goes on its way; whether the writer did so.
fn send_off<W: Write>(writer: &mut W) -> bool
    ensures { Appends (W.contents writer.old) (W.contents writer.new) [] }
{
    writer.flush().is_ok()
}

/// Writes octets, and where they are urgent sends them off too; whether the writer did all that.
#[tactic(auto, using(crate::proofs::Written::sent_off))]
pub fn hand_over<W: Write>(writer: &mut W, octets: &[u8], is_urgent: bool) -> bool
    ensures { HasWritten (W.contents writer.old) (W.contents writer.new) octets.now result }
{
    if !write_octets(writer, octets) {
        return false;
    }
    if is_urgent {
        return send_off(writer);
    }
    true
}
