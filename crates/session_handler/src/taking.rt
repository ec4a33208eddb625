//! Takes a message: asks the directory and writes the responses.
ghost use Rattle.std.specs.Prelude.{◌≡◌, ◌∷◌, [], true, None};
ghost use Rattle.request_checks.specs.ldap_msg.View.{view, request_view, bind_view, search_view, compare_view};
ghost use Rattle.directory_api.specs.Talk.{RoleValue, Along, asked_role, learned, looked, recovering};
ghost use Rattle.directory_api.specs.View.{role_view, reply_view, answer_view};
ghost use Rattle.request_checks.specs.Binding.{bound};
ghost use Rattle.request_checks.specs.Requests.{update_of, answering_of};
ghost use Rattle.session_handler.specs.Session.{a_search, a_compare, asked, asked_of, bound_reaction, named_number, number_seen, is_recovering};
ghost use Rattle.session_handler.specs.Taken.{IsDone, HasTaken};
ghost use Rattle.session_handler.specs.private.Taken.{OutcomeOf};
ghost use Rattle.session_handler.specs.Turns.{Inquiry, Turn};
ghost use Rattle.session_handler.specs.View.{config_view};

use crate::answered::{Answered, Next};
use crate::config::Config;
use crate::hearing::{Heard, hear};
use crate::responses::{disconnect, say_code, say_compare, say_search, silence};
use crate::state::State;
use crate::task::{Task, refuse};
use directory_api::{Directory, Found, LookError, Reply, Role, SearchAnswer};
use request_checks::{
    AnswerError, Answering, BindRequest, CompareRequest, Identity, Message, Request, ResultCode,
    SearchRequest, bind, update_in,
};
use std::alloc::Global;

/// Whether a replica has no state yet.
fn is_recovering(role: &Role) -> bool
    ensures { result ≡ is_recovering (role_view role.now) }
{
    match role {
        Role::Recovering => true,
        Role::Primary | Role::Backup { .. } | Role::Changing => false,
    }
}

/// The number that a search was answered at; 0 where it has no answer.
fn search_number(outcome: &Result<Found<SearchAnswer>, LookError>) -> u64
    ensures { result ≡ number_seen (looked answer_view outcome.now) }
{
    match outcome {
        Ok(found) => found.at,
        Err(LookError::NotYet { .. } | LookError::Gone | LookError::NoMemory) => 0,
    }
}

/// The number that a compare was answered at; 0 where it has no answer.
fn compare_number(outcome: &Result<Found<Reply>, LookError>) -> u64
    ensures { result ≡ number_seen (looked reply_view outcome.now) }
{
    match outcome {
        Ok(found) => found.at,
        Err(LookError::NotYet { .. } | LookError::Gone | LookError::NoMemory) => 0,
    }
}

/// Asks for the role of the replica, and learns what is told with it.
fn ask_role<D: Directory>(alloc: Global, directory: &mut D) -> Role
    ensures { (told : D.Told) × Along D.allows directory.old (asked_role (role_view result) told ∷ learned told ∷ [])
        directory.new }
{
    let (role, told) = directory.role(alloc);
    directory.learn(told);
    role
}

impl Task<'_> {
    /// Binds, and answers. The session is anonymous while the bind is judged.
    fn take_bind(&self, state: &mut State, request: &BindRequest) -> Result<Answered, AnswerError>
        ensures { IsDone (bound_reaction state.old self.now.pending.id (bound (config_view self.now.config).schema
            (config_view self.now.config).manager (config_view self.now.config).password (bind_view request.now)))
            state.new result }
    {
        state.identity = Identity::Anonymous;
        let bound = bind(
            self.alloc,
            self.config.schema,
            self.config.manager,
            self.config.password,
            request,
        )?;
        state.identity = bound.identity;
        say_code(self.alloc, self.pending.id, Answering::Bind, bound.code)
    }

    /// Asks for a search, and answers it. The session reads on from where it was answered.
    #[tactic(auto, using(crate::proofs::Turning::one_search))]
    fn take_search<D: Directory>(
        &self,
        state: &mut State,
        directory: &mut D,
        request: &SearchRequest,
    ) -> Result<Answered, AnswerError>
        ensures { HasTaken D.allows directory.old directory.new (OutcomeOf state.old self.now.pending
            (a_search (named_number state.old self.now.pending.named) (search_view request.now))) state.new result }
    {
        let number = state.named_number(self.pending.named);
        let outcome = directory.search(self.alloc, number, request);
        state.read_from(search_number(&outcome));
        say_search(
            self.alloc,
            self.pending.id,
            self.pending.named.number,
            outcome,
        )
    }

    /// Asks for a compare, and answers it. The session reads on from where it was answered.
    #[tactic(auto, using(crate::proofs::Turning::one_compare))]
    fn take_compare<D: Directory>(
        &self,
        state: &mut State,
        directory: &mut D,
        request: &CompareRequest,
    ) -> Result<Answered, AnswerError>
        ensures { HasTaken D.allows directory.old directory.new (OutcomeOf state.old self.now.pending
            (a_compare (named_number state.old self.now.pending.named) (compare_view request.now))) state.new result }
    {
        let number = state.named_number(self.pending.named);
        let outcome = directory.compare(self.alloc, number, request);
        state.read_from(compare_number(&outcome));
        say_compare(
            self.alloc,
            self.pending.id,
            self.pending.named.number,
            outcome,
        )
    }

    /// Answers a request that is no update, at a replica that has a state.
    #[tactic(auto, using(crate::proofs::Turning::said_is_done, crate::proofs::Turning::reacted))]
    fn take_other<D: Directory>(
        &self,
        state: &mut State,
        directory: &mut D,
        request: &Request,
    ) -> Result<Answered, AnswerError>
        requires other { update_of (request_view request.now) ≡ None }
        ensures { (role : RoleValue) → HasTaken D.allows directory.old directory.new
            (OutcomeOf state.old self.now.pending
            (asked_of (config_view self.now.config) state.old self.now.pending (request_view request.now) role))
            state.new result }
    {
        match request {
            Request::Bind(bind) => self.take_bind(state, bind),
            Request::Search(search) => self.take_search(state, directory, search),
            Request::Compare(compare) => self.take_compare(state, directory, compare),
            Request::Extended(_) => self.refuse(state, ResultCode::PROTOCOL_ERROR),
            Request::Unbind => silence(self.alloc, Next::Unbound),
            Request::Abandon(_) => silence(self.alloc, Next::GoesOn),
            Request::Add(_) | Request::Modify(_) | Request::Delete(_) | Request::ModifyDn(_) => {
                unreachable!()
            }
        }
    }

    /// Answers a request at a replica that has a state.
    fn take_served<D: Directory>(
        &self,
        state: &mut State,
        directory: &mut D,
        role: Role,
        request: Request,
    ) -> Result<Answered, AnswerError>
        ensures { HasTaken D.allows directory.old directory.new (OutcomeOf state.old self.now.pending
            (asked_of (config_view self.now.config) state.old self.now.pending (request_view request)
            (role_view role))) state.new result }
    {
        match update_in(request) {
            Ok(update) => self.ask_update(state, directory, role, update),
            Err(request) => self.take_other(state, directory, &request),
        }
    }

    /// Answers a request where the role of the replica is known.
    #[tactic(auto, using(crate::proofs::Turning::reacted))]
    fn take_at<D: Directory>(
        &self,
        state: &mut State,
        directory: &mut D,
        role: Role,
        request: Request,
    ) -> Result<Answered, AnswerError>
        ensures { HasTaken D.allows directory.old directory.new (OutcomeOf state.old self.now.pending
            (asked (config_view self.now.config) state.old self.now.pending (request_view request) (role_view role)))
            state.new result }
    {
        if is_recovering(&role) {
            self.refuse(state, ResultCode::UNAVAILABLE)
        } else {
            self.take_served(state, directory, role, request)
        }
    }

    /// Asks about a request that has passed its controls, and answers it.
    #[tactic(auto, using(crate::proofs::Turning::role_then))]
    fn take_request<D: Directory>(
        &self,
        state: &mut State,
        directory: &mut D,
        request: Request,
    ) -> Result<Answered, AnswerError>
        requires kind { self.now.pending.answering ≡ answering_of (request_view request) }
        ensures { HasTaken D.allows directory.old directory.new
            (Inquiry (config_view self.now.config) state.old self.now.pending.id (request_view request)
            self.now.pending.named) state.new result }
    {
        let role = ask_role(self.alloc, directory);
        self.take_at(state, directory, role, request)
    }
}

/// What a session makes of one message: the octets of the responses, and whether the session goes on. A message that is
/// no request gets the Notice of Disconnection (RFC 4511 4.4.1).
pub fn take<D: Directory>(
    alloc: Global,
    config: &Config,
    state: &mut State,
    directory: &mut D,
    message: Message,
) -> Result<Answered, AnswerError>
    // The directory goes along a talk that is a turn of the session at this message, and what the session makes of it
    // is done.
    ensures { HasTaken D.allows directory.old directory.new (Turn (config_view config.now) state.old (view message))
        state.new result }
{
    match hear(message) {
        Heard::NoRequest => disconnect(alloc),
        Heard::Silence { next } => silence(alloc, next),
        Heard::Refusal {
            id,
            answering,
            code,
        } => refuse(alloc, state, id, answering, code),
        Heard::Question { pending, request } => {
            let task = Task {
                alloc,
                config: *config,
                pending,
            };
            task.take_request(state, directory, request)
        }
    }
}
