//! Asks for an update and answers it.
ghost use Rattle.std.specs.Prelude.{◌≡◌, ◌∷◌, [], None};
ghost use Rattle.directory_api.specs.View.{reply_view};
ghost use Rattle.directory_api.specs.ldap_op.View.{update_view};
ghost use Rattle.directory_api.specs.View.{role_view, ended_view};
ghost use Rattle.session_handler.specs.Responses.{done_message};
ghost use Rattle.session_handler.specs.Session.{an_update, after_update, requests_after, update_as, update_at, update_by};
ghost use Rattle.session_handler.specs.Taken.{AreSaid, IsDone, HasTaken};
ghost use Rattle.session_handler.specs.private.Taken.{OutcomeOf};
ghost use Rattle.session_handler.specs.View.{config_view};

use crate::answered::{Answered, Next};
use crate::pending::Pending;
use crate::responses::{result_of, say_numbered};
use crate::state::State;
use crate::task::Task;
use directory_api::{Client, Directory, Ended, Reply, Role, Update, named_client};
use request_checks::{AnswerError, GREATEST_NUMBER, Identity, ResultCode, response_to, value_for};

/// A client's request for an update.
#[derive(Clone, Copy)]
struct ClientRequest {
    client: Client,
    /// The client's number for it.
    number: u64,
}

impl Task<'_> {
    /// The response to the update, which was made or refused under this number.
    fn say_done(&self, number: u64, reply: Reply) -> Result<Answered, AnswerError>
        ensures { AreSaid (done_message self.now.pending.id self.now.pending.answering self.now.pending.named.number
            number (reply_view reply) ∷ [])
            Next.GoesOn result }
    {
        let Pending {
            id,
            answering,
            named,
        } = self.pending;
        let value = value_for(self.alloc, answering, number)?;
        let response = response_to(answering, result_of(self.alloc, reply), value);
        say_numbered(self.alloc, id, response, named.number, number)
    }

    /// What the update came to, once it was asked.
    fn end(&self, state: &mut State, ended: Ended) -> Result<Answered, AnswerError>
        ensures { IsDone (after_update state.old self.now.pending.id self.now.pending.answering self.now.pending.named
            (ended_view ended))
            state.new result }
    {
        match ended {
            Ended::Done { number, reply } => {
                state.read_from(number);
                self.say_done(number, reply)
            }
            Ended::Stale => self.refuse(state, ResultCode::UNWILLING_TO_PERFORM),
            Ended::Lost => self.refuse(state, ResultCode::OTHER),
            Ended::NoMemory => self.refuse(state, ResultCode::OTHER),
        }
    }

    /// Asks for the update as a client's request, after which the session's own client has made so many requests.
    #[tactic(auto, using(crate::proofs::Turning::one_update))]
    fn ask_gate<D: Directory>(
        &self,
        state: &mut State,
        directory: &mut D,
        request: ClientRequest,
        requests: u64,
        update: Update,
    ) -> Result<Answered, AnswerError>
        requires requests { requests ≡ requests_after state.old.requests self.now.pending.named.request }
        ensures { HasTaken D.allows directory.old directory.new
            (OutcomeOf state.old self.now.pending (an_update request.client request.number (update_view update)))
            state.new result }
    {
        state.requests = requests;
        let ended = directory.update(self.alloc, request.client, request.number, update);
        self.end(state, ended)
    }

    /// Asks for the update as the next request of the session's own client, while it has numbers.
    #[tactic(auto, using(crate::proofs::Turning::reacted, std::proofs::lemmas::Bool::Decides::nat_tests))]
    fn ask_as_own<D: Directory>(
        &self,
        state: &mut State,
        directory: &mut D,
        update: Update,
    ) -> Result<Answered, AnswerError>
        requires own { self.now.pending.named.request ≡ None }
        ensures { HasTaken D.allows directory.old directory.new (OutcomeOf state.old self.now.pending
            (update_as (config_view self.now.config) state.old self.now.pending (update_view update) None)) state.new
            result }
    {
        if state.requests < GREATEST_NUMBER {
            let number = state.requests + 1;
            let request = ClientRequest {
                client: self.config.client(),
                number,
            };
            self.ask_gate(state, directory, request, number, update)
        } else {
            self.refuse(state, ResultCode::OTHER)
        }
    }

    /// Asks for the update as the client that its control names, or as the session's own.
    fn ask_as<D: Directory>(
        &self,
        state: &mut State,
        directory: &mut D,
        update: Update,
    ) -> Result<Answered, AnswerError>
        ensures { HasTaken D.allows directory.old directory.new (OutcomeOf state.old self.now.pending
            (update_as (config_view self.now.config)
            state.old self.now.pending (update_view update) self.now.pending.named.request)) state.new result }
    {
        match self.pending.named.request {
            Some((client, number)) => {
                let requests = state.requests;
                let request = ClientRequest {
                    client: named_client(client),
                    number,
                };
                self.ask_gate(state, directory, request, requests, update)
            }
            None => self.ask_as_own(state, directory, update),
        }
    }

    /// Asks for the manager's update where updates are made, and refuses it elsewhere.
    #[tactic(auto, using(crate::proofs::Turning::reacted))]
    fn ask_at<D: Directory>(
        &self,
        state: &mut State,
        directory: &mut D,
        role: Role,
        update: Update,
    ) -> Result<Answered, AnswerError>
        ensures { HasTaken D.allows directory.old directory.new (OutcomeOf state.old self.now.pending
            (update_at (config_view self.now.config) state.old self.now.pending (update_view update)
            (role_view role))) state.new result }
    {
        match role {
            Role::Primary => self.ask_as(state, directory, update),
            Role::Backup { uri } => self.refer(state, uri),
            Role::Changing => self.refuse(state, ResultCode::UNAVAILABLE),
            Role::Recovering => self.refuse(state, ResultCode::UNAVAILABLE),
        }
    }

    /// Asks for the update, if it is the manager who wants it.
    #[tactic(auto, using(crate::proofs::Turning::reacted))]
    pub fn ask_update<D: Directory>(
        &self,
        state: &mut State,
        directory: &mut D,
        role: Role,
        update: Update,
    ) -> Result<Answered, AnswerError>
        ensures { HasTaken D.allows directory.old directory.new (OutcomeOf state.old self.now.pending
            (update_by state.old.identity
            (config_view self.now.config) state.old self.now.pending (update_view update) (role_view role))) state.new
            result }
    {
        match state.identity {
            Identity::Manager => self.ask_at(state, directory, role, update),
            Identity::Anonymous => self.refuse(state, ResultCode::INSUFFICIENT_ACCESS_RIGHTS),
        }
    }
}
