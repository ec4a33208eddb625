//! Serves a session: reads messages off a stream, has each answered by a directory, and writes the
//! responses.
//!
//! A client's stream in pieces (`session`): each message of the framer is answered by the rules. `serving` reads,
//! answers all whole messages that are there, and flushes; `writing` writes until the writer has taken all. A
//! `Conversation` keeps what is heard and not answered, and what is answered and not sent, so that different
//! directories may serve its messages (`due` says what is next).
//!
//! Proved, **the theorem of sessions**: for every directory, every reader and writer that tell their octets, and every
//! cut of the stream, `serve` writes a session's responses to the messages that it reads. It writes all of them up to
//! what ends the session, with the Notice of Disconnection where that is due; after a failed write or without memory, a
//! front of them. `Session::feed`, `answer`, `end_of_input` and `Conversation` say the same message by message.
#![tactic(auto)]

mod conversation;
mod due;
mod end;
mod laws;
mod serving;
mod session;
mod writing;

pub use conversation::Conversation;
pub use due::{Due, Step};
pub use end::SessionEnd;
pub use laws::{
    conversation_begins, conversation_listens, conversation_speaks, is_session, is_with_one,
    one_update_a_message,
};
pub use serving::serve;
pub use session::Session;
pub use session_handler::{
    AnswerError, Answered, Client, CompareRequest, Config, Directory, Ended, Found, Gate, Look,
    LookError, Name, Next, Reply, Responses, Role, SearchAnswer, SearchRequest, Update,
};
pub use writing::write_octets;
