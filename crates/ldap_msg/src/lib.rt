//! Reads and writes whole LDAP messages.
//!
//! The envelope and the choice of operations: whole messages. The first octet says which operation it is; no proof
//! compares the operations two by two. To add an operation, put its content into `ldap_requests` or `ldap_parts`. Then
//! add a case here to the value (`Messages`), its kind (`Kinds`), the view, the grammar (`first_octet`,
//! `IsRequestContent`), the written form and the lists of `proofs/Choices`.
//!
//! Proved: whole messages are read exactly and written in their one form (`decode`, `encode`, `put_search_entry`,
//! `one_message`, `is_message`).
#![tactic(auto)]

mod decoding;
mod decoding_request;
mod decoding_response;
mod encoding;
mod encoding_request;
mod encoding_response;
mod kinds;
mod message;

pub use decoding::{MAX_MESSAGE, decode, one_message};
pub use encoding::{encode, is_message, put_search_entry};
pub use kinds::RequestKind;
pub use ldap_parts::{
    AddRequest, Attribute, AttributeParts, Change, Control, ExtendedResponse, LdapResult,
    ModifyDnRequest, ModifyOperation, ModifyRequest, PartialAttribute, ResultCode,
    SearchResultEntry, add_lengths, element_length, write_head,
};
pub use ldap_requests::{
    AttributeValueAssertion, AuthenticationChoice, BerFault, BindRequest, CompareRequest,
    DerefAliases, ExtendedRequest, Filter, MsgFault, SaslCredentials, Scope, SearchRequest,
    WriteError as EncodeError, header, write,
};
pub use message::{Message, ProtocolOp, Request, Response};
