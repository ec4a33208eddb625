//! Reads and writes the requests that are no updates.
//!
//! Bind, unbind, search, compare, abandon and extended; made as `ldap_parts` says.
//!
//! Proved: the content of each is read exactly and written in its one form (`bind_of`, `search_of`, `compare_of`,
//! `extended_request_of`, `abandon_of`, `unbind_of`, and `bind_content`, ..).
#![tactic(auto)]

mod bind;
mod compare;
mod decoding_bind;
mod decoding_compare;
mod decoding_extended;
mod decoding_search;
mod encoding_bind;
mod encoding_compare;
mod encoding_extended;
mod encoding_search;
mod extended;
mod search;

pub use bind::{AuthenticationChoice, BindRequest, SaslCredentials};
pub use compare::{AttributeValueAssertion, CompareRequest};
pub use decoding_bind::bind_of;
pub use decoding_compare::compare_of;
pub use decoding_extended::{abandon_of, extended_request_of, unbind_of};
pub use decoding_search::search_of;
pub use encoding_bind::bind_content;
pub use encoding_compare::compare_content;
pub use encoding_extended::{abandon_content, extended_request_content};
pub use encoding_search::search_content;
pub use extended::ExtendedRequest;
pub use ldap_filter::{
    BerFault, Filter, MsgFault, WriteError, element, field, header, number_field, put_number, write,
};
pub use search::{DerefAliases, Scope, SearchRequest};
