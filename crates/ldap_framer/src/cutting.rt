//! Cuts the whole messages at the front of octets.

ghost use Rattle.std.specs.Prelude.{◌≡◌, ◌≤◌, ℕ, List, length, map, take, drop, IfOk, IfErr};
ghost use Rattle.ldap_msg.specs.View.{view};
ghost use Rattle.ldap_framer.specs.Stream.{IsFrame, Reads};
ghost use Rattle.ldap_framer.specs.Framed.{ending_of};
ghost use Rattle.ldap_framer.specs.private.Fronts.{BeginsFrame, IsTrueOf};

use crate::finding::{Cut, Finding};
use ldap_msg::{BerFault, MAX_MESSAGE, MsgFault, decode, header};
use std::alloc::Global;
use std::collections::VecDeque;

/// What a whole element of so many octets at the front is.
fn frame_of(alloc: Global, octets: &[u8], size: usize) -> Result<Finding, MsgFault>
    requires within { size ≤ length octets.now }
    requires small { size ≤ 4194304 }
    requires is_frame { IsFrame (take size octets.now) }
    ensures found { IfOk result (λ f. IsTrueOf f octets.now) }
    ensures no_memory { IfErr result (λ e. e ≡ MsgFault.NoMemory) }
{
    match decode(alloc, &octets[..size]) {
        Ok(message) => Ok(Finding::Whole(message, size)),
        Err(MsgFault::TooLarge) => Ok(Finding::Stopped(MsgFault::TooLarge)),
        Err(MsgFault::NotAMessage) => Ok(Finding::Stopped(MsgFault::NotAMessage)),
        Err(MsgFault::TooDeep) => Ok(Finding::Stopped(MsgFault::TooDeep)),
        Err(MsgFault::TooManyItems) => Ok(Finding::Stopped(MsgFault::TooManyItems)),
        Err(MsgFault::NoMemory) => Err(MsgFault::NoMemory),
    }
}

/// What stands at the front of octets that begin as a message does.
fn begun(alloc: Global, octets: &[u8]) -> Result<Finding, MsgFault>
    requires { BeginsFrame octets.now }
    ensures found { IfOk result (λ f. IsTrueOf f octets.now) }
    ensures no_memory { IfErr result (λ e. e ≡ MsgFault.NoMemory) }
{
    match header(octets) {
        Ok((_, len, size)) => {
            if len > MAX_MESSAGE as u64 || size + len as usize > MAX_MESSAGE {
                return Ok(Finding::Stopped(MsgFault::TooLarge));
            }
            let total = size + len as usize;
            if octets.len() < total {
                return Ok(Finding::Awaited);
            }
            frame_of(alloc, octets, total)
        }
        Err(BerFault::Short) => Ok(Finding::Awaited),
        Err(BerFault::HighTag) => Ok(Finding::Stopped(MsgFault::NotAMessage)),
        Err(BerFault::Indefinite) => Ok(Finding::Stopped(MsgFault::NotAMessage)),
        Err(BerFault::LengthTooLong) => Ok(Finding::Stopped(MsgFault::NotAMessage)),
    }
}

/// What stands at the front of octets. Where a message is not whole yet, at most six of its octets
/// are looked at.
fn finding(alloc: Global, octets: &[u8]) -> Result<Finding, MsgFault>
    ensures found { IfOk result (λ f. IsTrueOf f octets.now) }
    ensures no_memory { IfErr result (λ e. e ≡ MsgFault.NoMemory) }
{
    match octets {
        [] => Ok(Finding::Awaited),
        [first, ..] => {
            if *first == 0x30 {
                begun(alloc, octets)
            } else {
                Ok(Finding::Stopped(MsgFault::NotAMessage))
            }
        }
    }
}

/// The whole messages at the front, and what stands behind them. Each octet of a whole message is
/// read once, and at most six octets of what is left.
pub fn cut(alloc: Global, octets: &[u8]) -> Result<Cut, MsgFault>
    ensures within { IfOk result (λ x. x.taken ≤ length octets.now) }
    ensures reads { IfOk result (λ x. Reads octets.now (map view x.messages.items)
        (ending_of x.fault (drop x.taken octets.now))) }
    ensures no_memory { IfErr result (λ e. e ≡ MsgFault.NoMemory) }
{
    let mut messages = VecDeque::new(alloc);
    let mut rest = octets;
    loop {
        match finding(alloc, rest)? {
            Finding::Whole(message, size) => {
                let (_, after) = rest.split_at(size);
                messages.push_back(message)?;
                rest = after;
            }
            Finding::Awaited => {
                return Ok(Cut {
                    messages,
                    taken: octets.len() - rest.len(),
                    fault: None,
                });
            }
            Finding::Stopped(fault) => {
                return Ok(Cut {
                    messages,
                    taken: octets.len() - rest.len(),
                    fault: Some(fault),
                });
            }
        }
    }
}
