//! A request that a session answers: what each step of the answer needs.
ghost use Rattle.std.specs.Prelude.{◌≡◌, string_bytes};
ghost use Rattle.request_checks.specs.Messages.{referral_to};
ghost use Rattle.session_handler.specs.Session.{refused, refused_with, identity_refused};
ghost use Rattle.session_handler.specs.Taken.{IsDone};

use crate::answered::Answered;
use crate::config::Config;
use crate::pending::Pending;
use crate::responses::{say, say_code};
use crate::state::State;
use request_checks::{AnswerError, Answering, Identity, ResultCode, referral_to, response_to};
use std::alloc::Global;

/// Who a session is bound as once a request of this kind was refused.
fn identity_refused(identity: Identity, answering: Answering) -> Identity
    ensures { result ≡ identity_refused identity answering }
{
    match answering {
        Answering::Bind => Identity::Anonymous,
        Answering::Search
        | Answering::Modify
        | Answering::Add
        | Answering::Delete
        | Answering::ModifyDn
        | Answering::Compare
        | Answering::Extended => identity,
    }
}

/// Refuses a request of this kind by a code alone.
pub fn refuse(
    alloc: Global,
    state: &mut State,
    id: u32,
    answering: Answering,
    code: ResultCode,
) -> Result<Answered, AnswerError>
    ensures { IsDone (refused_with state.old id answering code) state.new result }
{
    state.identity = identity_refused(state.identity, answering);
    say_code(alloc, id, answering, code)
}

/// A request that a session answers, with what each step of the answer needs.
#[derive(Clone, Copy)]
pub struct Task<'a> {
    pub alloc: Global,
    pub config: Config<'a>,
    pub pending: Pending,
}

impl Task<'_> {
    /// Refuses the request by a code alone.
    pub fn refuse(&self, state: &mut State, code: ResultCode) -> Result<Answered, AnswerError>
        ensures { IsDone (refused_with state.old self.now.pending.id self.now.pending.answering code) state.new result }
    {
        let Pending { id, answering, .. } = self.pending;
        refuse(self.alloc, state, id, answering, code)
    }

    /// Sends the request to where updates are made.
    pub fn refer(&self, state: &mut State, uri: String) -> Result<Answered, AnswerError>
        ensures { IsDone (refused state.old self.now.pending.id self.now.pending.answering
            (referral_to (string_bytes uri))) state.new result }
    {
        let Pending { id, answering, .. } = self.pending;
        state.identity = identity_refused(state.identity, answering);
        let referral = referral_to(self.alloc, uri)?;
        say(self.alloc, id, response_to(answering, referral, None))
    }
}
