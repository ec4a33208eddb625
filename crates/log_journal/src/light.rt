//! Events that can't have a replica adopt a log: what a step at one of them notes is one string at most. Room for it is
//! reserved before the step, so that no step is made that can't be noted for want of memory.
ghost use Rattle.std.specs.Prelude.{◌≡◌, ◌≤◌, ◌<◌, ◌⊎◌, ◌+◌, ◌^◌, ◌&&◌, ◌==◌, [], true, map, length, vec_len, vec_capacity, IfErr, IfSome, OnOk};
ghost use Rattle.journal.specs.Frames.{recorded};
ghost use Rattle.vr_state.specs.State.{primary};
ghost use Rattle.vr_state.specs.Views.{state};
ghost use Rattle.log_journal.specs.Notes.{Puts, Step};
ghost use Rattle.log_journal.specs.Refused.{IsOfNotingOne};
ghost use Rattle.log_journal.specs.Steps.{notes_since};
ghost use Rattle.log_journal.specs.Views.{fields_view};
ghost use Rattle.log_journal.specs.private.Framed.{IsFramed};
ghost use Rattle.log_journal.specs.private.Light.{HasOctets, IsNotedByOne, brings, has_heard, is_light, is_light_message, may_lead};
ghost use Rattle.log_journal.specs.private.Notes.{PutsFields};

use crate::batch::push_frame;
use crate::error::NoteError;
use crate::fields::{Fields, spell_fields};
use crate::laws::fields_are_read;
use crate::notes::{entry_fields, plain, see_fields};
use crate::spelling::{octets_of, spell};
use crate::steps::{Before, is_normal};
use ldap_op::Op;
use vr_state::event::Event;
use vr_state::message::PeerMessage;
use vr_state::replica::Replica;
use vr_state::standing::{is_behind, is_recovering};

/// Whether a replica is to begin a view that it isn't normal in yet.
fn may_lead(replica: &Replica<Op>, view_number: u64) -> bool
    ensures { result ≡ may_lead replica.now.count replica.now.index (state replica.now) view_number }
{
    is_behind(replica, view_number) && view_number % replica.count == replica.index
}

/// Whether a replica has noted this STARTVIEWCHANGE already.
fn has_heard(replica: &Replica<Op>, from: u64, view_number: u64) -> bool
    ensures { result ≡ has_heard (state replica.now) from view_number }
{
    replica.view_number == view_number && replica.start_view_changes.as_slice().contains(&from)
}

/// Whether a message can't have the replica adopt a log.
fn is_light_message(replica: &Replica<Op>, from: u64, message: &PeerMessage<Op>) -> bool
    ensures { result ≡ is_light_message replica.now.count replica.now.index (state replica.now) from message.now }
{
    match message {
        PeerMessage::StartViewChange { view_number } => {
            !(may_lead(replica, *view_number) && !has_heard(replica, from, *view_number))
        }
        PeerMessage::DoViewChange { view_number, .. } => !may_lead(replica, *view_number),
        PeerMessage::StartView { view_number, .. } => !is_behind(replica, *view_number),
        PeerMessage::NewState { .. } => false,
        PeerMessage::RecoveryResponse { .. } => !is_recovering(replica),
        PeerMessage::Prepare { .. }
        | PeerMessage::PrepareOk { .. }
        | PeerMessage::Commit { .. }
        | PeerMessage::GetState { .. }
        | PeerMessage::Recovery { .. } => true,
    }
}

/// Whether an event can't have the replica adopt a log.
fn is_light(replica: &Replica<Op>, event: &Event<Op>) -> bool
    ensures { result ≡ is_light replica.now.count replica.now.index (state replica.now) event.now }
{
    match event {
        Event::Message { from, message } => is_light_message(replica, *from, message),
        Event::Request { .. } | Event::Suspect | Event::Beat => true,
    }
}

/// How many octets the update has that an event brings; none where it has no spelling.
fn octets_brought(event: &Event<Op>) -> Option<usize>
    ensures octets { IfSome result (λ room. HasOctets room (brings event.now)) }
    ensures small { IfSome result (λ room. room < 2 ^ 63) }
{
    match event {
        Event::Request { entry } => octets_of(&entry.payload),
        Event::Message { message, .. } => match message {
            PeerMessage::Prepare { entry, .. } => octets_of(&entry.payload),
            _ => Some(0),
        },
        Event::Suspect | Event::Beat => Some(0),
    }
}

/// How many octets the update has, at most, that is noted at an event which can't have the replica adopt a log; none
/// for another event, or where the update has no spelling.
pub fn light_room(replica: &Replica<Op>, event: &Event<Op>) -> Option<usize>
    ensures light { IfSome result (λ room. is_light replica.now.count replica.now.index (state replica.now)
        event.now ≡ true) }
    ensures octets { IfSome result (λ room. HasOctets room (brings event.now)) }
    ensures small { IfSome result (λ room. room < 2 ^ 63) }
{
    if is_light(replica, event) {
        octets_brought(event)
    } else {
        None
    }
}

/// Puts the string of these fields in room that is reserved for it.
fn put_reserved(
    out: &mut Vec<u8>,
    string: &mut Vec<u8>,
    fields: &Fields<'_>,
) -> Result<(), NoteError>
    requires framed { IsFramed out.old.items }
    requires empty { string.old.items ≡ [] }
    requires room { vec_len out.old + (59 + length fields.now.rest.now) ≤ vec_capacity out.old }
    requires string_room { 49 + length fields.now.rest.now ≤ vec_capacity string.old }
    ensures framed { IsFramed out.new.items }
    ensures ok { OnOk result (PutsFields (fields_view fields.now) (recorded out.old.items) (recorded out.new.items)) }
    ensures errors { IfErr result (λ e. IsOfNotingOne e) }
{
    see_fields(fields);
    fields_are_read();
    // prover: there is room for both.
    match spell_fields(string, fields) {
        Ok(()) => {}
        Err(_) => return Err(NoteError::NoMemory),
    }
    match push_frame(out, string.as_slice()) {
        Ok(()) => Ok(()),
        Err(error) => Err(error),
    }
}

/// Puts what is noted of a step, one string at most, in room that is reserved for it. E29 where the frames would be too
/// long, E3 where an update has no spelling; nothing else.
pub fn put_light(
    out: &mut Vec<u8>,
    string: &mut Vec<u8>,
    before: Before,
    room: usize,
    replica: &Replica<Op>,
) -> Result<(), NoteError>
    requires framed { IsFramed out.old.items }
    requires empty { string.old.items ≡ [] }
    requires room { vec_len out.old + (59 + room) ≤ vec_capacity out.old }
    requires string_room { 49 + room ≤ vec_capacity string.old }
    requires light { IsNotedByOne before (state replica.now) room }
    ensures framed { IsFramed out.new.items }
    ensures ok { OnOk result (Puts (map (λ x. Step x) (notes_since before 0 (state replica.now)))
        (recorded out.old.items) (recorded out.new.items)) }
    ensures errors { IfErr result (λ e. IsOfNotingOne e) }
{
    if !is_normal(replica.status) {
        if before.view_number < replica.view_number {
            put_reserved(out, string, &plain(2, replica.view_number, 0, 0, 0))?;
        }
        return Ok(());
    }
    let from = (before.length as usize).min(replica.log.len());
    let (_, behind) = replica.log.as_slice().split_at(from);
    match behind {
        [entry, ..] => {
            let octets = spell(&entry.payload)?;
            put_reserved(
                out,
                string,
                &entry_fields(3, replica.commit_number, entry, octets),
            )
        }
        [] => Ok(()),
    }
}
