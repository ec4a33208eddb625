// Lines that ask for an update. How an update is written isn't here.

ghost use Rattle.std.specs.Prelude.{◌≡◌, IfOk, IsErrOf};
ghost use Rattle.dir_lab.specs.ldap_op.Values.{OpValue};
ghost use Rattle.lab_script.specs.Events.{EventValue, event_view};
ghost use Rattle.lab_script.specs.Lines.{IsRequest, IsRequestOf, requested};
ghost use Rattle.lab_script.specs.Updates.{IsUpdateText};

use crate::cutting::request_parts;
use crate::fault::LineError;
use crate::text_fault::TextError;
use crate::updates::read_update;
use dir_lab::{Client, LabEvent, LogEntry, Op, WorldEvent};
use std::alloc::Global;

/// The update that a text writes.
fn update_in(alloc: Global, text: &[u8]) -> Result<Op, LineError>
    ensures found { IfOk result (λ op. IsUpdateText text.now op) }
    ensures bad { IsErrOf result LineError.BadLine → (op : OpValue) → IsUpdateText text.now op → ⊥ }
{
    match read_update(alloc, text) {
        Ok(op) => Ok(op),
        Err(TextError::BadText) => Err(LineError::BadLine),
        Err(TextError::NoMemory) => Err(LineError::NoMemory),
    }
}

/// A client, which names itself, asks a replica for an update.
fn request_event(replica: u64, client: u64, number: u64, op: Op) -> LabEvent
    ensures { event_view result ≡ requested replica client number op }
{
    LabEvent::Happens {
        event: WorldEvent::Request {
            replica,
            entry: LogEntry {
                client: Client {
                    home: 0,
                    life: 0,
                    number: client,
                },
                request_number: number,
                payload: op,
            },
        },
    }
}

/// The request of these numbers and the update of this text.
fn request_of(
    alloc: Global,
    replica: u64,
    client: u64,
    number: u64,
    text: &[u8],
) -> Result<LabEvent, LineError>
    ensures found { IfOk result
        (λ e. IsRequestOf (record { replica = replica; client = client; number = number; text = text.now })
        (event_view e)) }
    ensures bad { IsErrOf result LineError.BadLine → (e : EventValue)
        → IsRequestOf (record { replica = replica; client = client; number = number; text = text.now }) e → ⊥ }
{
    let op = update_in(alloc, text)?;
    Ok(request_event(replica, client, number, op))
}

/// The event of a request, behind its word.
pub fn request_in(alloc: Global, rest: &[u8]) -> Result<LabEvent, LineError>
    ensures found { IfOk result (λ e. IsRequest rest.now (event_view e)) }
    ensures bad { IsErrOf result LineError.BadLine → (e : EventValue) → IsRequest rest.now e → ⊥ }
{
    match request_parts(rest) {
        Some(parts) => request_of(alloc, parts.replica, parts.client, parts.number, parts.text),
        None => Err(LineError::BadLine),
    }
}
