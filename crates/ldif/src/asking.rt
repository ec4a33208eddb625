//! Writes the messages that ask for the adds of records.

ghost use Rattle.std.specs.Prelude.{◌≡◌, ◌≤◌, ◌<◌, ◌+◌, ◌^◌, ◌++◌, ◌∷◌, [], length, IfOk, IfErr, OnOk, MatchOption};
ghost use Rattle.ldap_msg.specs.Written.{message_bytes, message_content};
ghost use Rattle.ldif.specs.Adds.{add_message, adds_from};
ghost use Rattle.ldif.specs.HexLines.{hex_line, message_lines};
ghost use Rattle.ldif.specs.Imports.{IsAskFault};
ghost use Rattle.ldif.specs.private.Imports.{IsPutFault};

use crate::adding::add_of;
use crate::hex_lines::put_hex_line;
use crate::record::Record;
use crate::refusals::ImportError;
use ldap_msg::{EncodeError, Message, ProtocolOp, Request, encode};
use std::alloc::Global;

/// The messageID of a record by its place, from 0 on; none, where there are no more.
fn id_of(index: usize) -> Option<u32>
    ensures { MatchOption result (2 ^ 31 ≤ index + 1) (λ id. (id ≡ index + 1) × (index + 1 < 2 ^ 31)) }
{
    if index < 2_147_483_647 {
        Some(index as u32 + 1)
    } else {
        None
    }
}

/// The octets of a record's add.
fn written(alloc: Global, id: u32, item: &Record) -> Result<Vec<u8>, ImportError>
    ensures ok { IfOk result (λ v. v.items ≡ message_bytes (add_message id item.now)) }
    ensures refused { IfErr result (λ e. IsPutFault e (message_content (add_message id item.now))) }
{
    let message = Message {
        id,
        op: ProtocolOp::Request(Request::Add(add_of(alloc, item)?)),
        controls: Vec::new(alloc),
    };
    encode(alloc, &message).map_err(|error| match error {
        EncodeError::TooLong => ImportError::TooLong,
        EncodeError::NoMemory => ImportError::NoMemory,
    })
}

/// Puts the line of a record's add.
fn put_add(alloc: Global, id: u32, item: &Record, out: &mut Vec<u8>) -> Result<(), ImportError>
    ensures ok { OnOk result (out.new.items ≡ out.old.items ++ hex_line (message_bytes (add_message id item.now))) }
    ensures refused { IfErr result (λ e. IsPutFault e (message_content (add_message id item.now))) }
{
    let octets = written(alloc, id, item)?;
    put_hex_line(alloc, &octets, out)?;
    Ok(())
}

/// The lines of the adds of records, with messageIDs from 1 on.
pub fn add_lines(alloc: Global, records: &[Record]) -> Result<Vec<u8>, ImportError>
    ensures written { IfOk result (λ v. v.items ≡ message_lines (adds_from 1 records.now)) }
    ensures few { OnOk result (length records.now < 2 ^ 31) }
    ensures refused { IfErr result (λ e. IsAskFault e records.now) }
{
    let mut out = Vec::new(alloc);
    for (index, item) in records.iter().enumerate() {
        match id_of(index) {
            Some(id) => put_add(alloc, id, item, &mut out)?,
            None => return Err(ImportError::TooManyRecords),
        }
    }
    Ok(out)
}
