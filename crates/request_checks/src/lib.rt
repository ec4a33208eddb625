//! Judges a request by itself: its kind, its controls, a bind's name and password. It also writes
//! responses as octets.
//!
//! What needs no session: `requests` knows a request's kind, `controls` and `numbers` read its controls, `binding`
//! judges binds by a password that it compares with `sameness`, `writing` writes responses.
#![tactic(auto)]

mod binding;
mod bound;
mod controls;
mod fault;
mod identity;
mod numbers;
mod requests;
mod sameness;
mod writing;

pub use binding::bind;
pub use bound::Bound;
pub use controls::{Kind, Named, judge};
pub use dir_entry::{Name, Schema};
pub use fault::AnswerError;
pub use identity::Identity;
pub use ldap_msg::{
    BindRequest, CompareRequest, Control, EncodeError, ExtendedResponse, LdapResult, Message,
    ProtocolOp, Request, RequestKind, Response, ResultCode, SearchRequest,
};
pub use numbers::{GREATEST_NUMBER, number_of, pair_of};
pub use requests::{Answering, answering_of, is_update, kind_of, update_in};
pub use writing::{referral_to, response_to, value_for, write_numbered, write_plain};
