//! Judges a message before anything is asked of a directory.
ghost use Rattle.std.specs.Prelude.{◌≡◌, None, map};
ghost use Rattle.request_checks.specs.ldap_msg.Messages.{request as request_operation};
ghost use Rattle.request_checks.specs.ldap_msg.View.{view, request_view, control_view};
ghost use Rattle.session_handler.specs.private.Heard.{IsHeard};
ghost use Rattle.session_handler.specs.Session.{silence_of};

use crate::answered::Next;
use crate::pending::Pending;
use request_checks::{
    Answering, Control, Message, ProtocolOp, Request, RequestKind, ResultCode, answering_of, judge,
    kind_of,
};

/// What a message is before anything is asked.
#[derive(Drop)]
pub enum Heard {
    /// It is no request.
    NoRequest,
    /// A request without a response.
    Silence {
        next: Next,
    },
    /// A request that its controls refuse.
    Refusal {
        id: u32,
        answering: Answering,
        code: ResultCode,
    },
    /// A request that is to be asked about.
    Question {
        pending: Pending,
        request: Request,
    },
}

/// What becomes of the session at a request that has no response; none, where it has one.
fn silence_of(request: &Request) -> Option<Next>
    ensures { result ≡ silence_of (request_view request.now) }
{
    match request.kind() {
        RequestKind::Unbind => Some(Next::Unbound),
        RequestKind::Abandon => Some(Next::GoesOn),
        RequestKind::Bind
        | RequestKind::Search
        | RequestKind::Modify
        | RequestKind::Add
        | RequestKind::Delete
        | RequestKind::ModifyDn
        | RequestKind::Compare
        | RequestKind::Extended => None,
    }
}

/// A request with a response, by its controls.
fn hear_controls(id: u32, request: Request, controls: &[Control]) -> Heard
    requires answered { silence_of (request_view request) ≡ None }
    ensures { IsHeard result (record {
      id = id;
      op = request_operation (request_view request);
      controls =
          map control_view controls.now;
    }) }
{
    let answering = answering_of(&request);
    match judge(kind_of(&request), controls) {
        Ok(named) => Heard::Question {
            pending: Pending {
                id,
                answering,
                named,
            },
            request,
        },
        Err(code) => Heard::Refusal {
            id,
            answering,
            code,
        },
    }
}

/// A request, by whether it has a response and by its controls.
fn hear_request(id: u32, request: Request, controls: &[Control]) -> Heard
    ensures { IsHeard result (record {
      id = id;
      op = request_operation (request_view request);
      controls =
          map control_view controls.now;
    }) }
{
    match silence_of(&request) {
        Some(next) => Heard::Silence { next },
        None => hear_controls(id, request, controls),
    }
}

/// What a message is before anything is asked.
pub fn hear(message: Message) -> Heard
    ensures { IsHeard result (view message) }
{
    let Message { id, op, controls } = message;
    match op {
        ProtocolOp::Request(request) => hear_request(id, request, &controls),
        ProtocolOp::Response(_) => Heard::NoRequest,
    }
}
