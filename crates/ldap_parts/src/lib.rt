//! Reads and writes what requests, updates and results are made of: results, attributes and controls.
//!
//! Beside them the operations that change the directory (add, delete, modify and modifyDN) and the responses that are
//! no plain results (an entry that a search found, and extended).
//!
//! Each part has its type with the RFC's field names, its value, its grammar and its written form; a reader and a
//! writer of its content, and a lemma for each exit of the reader. `ldap_requests` is made the same way. Attributes are
//! written from whoever keeps a description and its values (`AttributeParts`).
//!
//! Proved: results, attributes and controls are read exactly and written in their one form (`result_of`,
//! `attribute_of`, `controls_of`, `result_content`, `attribute_content`, `put_attribute_list`, `put_controls`), and how
//! long attributes are (`attributes_length`). The content of each update is (`add_of`, `delete_of`, `modify_of`,
//! `modify_dn_of`, and `add_content`, ..), and that of each response (`entry_of`, `extended_of`, `put_entry`,
//! `entry_content`, `extended_content`); `entry_length` says how long an entry is before it is written. Its name and
//! its attributes may be anybody's.
#![tactic(auto)]

mod add;
mod attribute;
mod control;
mod decoding_add;
mod decoding_attribute;
mod decoding_control;
mod decoding_entry;
mod decoding_extended;
mod decoding_modify;
mod decoding_name;
mod decoding_result;
mod encoding_add;
mod encoding_attribute;
mod encoding_control;
mod encoding_entry;
mod encoding_extended;
mod encoding_modify;
mod encoding_name;
mod encoding_result;
mod entry;
mod extended;
mod modify;
mod modify_dn;
mod result;

pub use add::AddRequest;
pub use attribute::{Attribute, AttributeParts, PartialAttribute};
pub use control::Control;
pub use decoding_add::add_of;
pub use decoding_attribute::{attribute_field, attribute_of, attributes_field};
pub use decoding_control::controls_of;
pub use decoding_entry::entry_of;
pub use decoding_extended::extended_of;
pub use decoding_modify::modify_of;
pub use decoding_name::{delete_of, modify_dn_of};
pub use decoding_result::{result_field, result_of};
pub use encoding_add::add_content;
pub use encoding_attribute::{
    attribute_content, attributes_length, put_attribute_list, put_attributes,
};
pub use encoding_control::put_controls;
pub use encoding_entry::{entry_content, entry_length, put_entry};
pub use encoding_extended::extended_content;
pub use encoding_modify::modify_content;
pub use encoding_name::{delete_content, modify_dn_content};
pub use encoding_result::result_content;
pub use entry::SearchResultEntry;
pub use extended::ExtendedResponse;
pub use ldap_ber::{
    MsgFault, WriteError, add_lengths, copied, element, element_length, elements, field,
    flag_field, number_field, number_length, optional_octets, optional_text, put_flag, put_number,
    put_optional_octets, put_optional_text, text, text_field, write, write_head,
};
pub use modify::{Change, ModifyOperation, ModifyRequest};
pub use modify_dn::ModifyDnRequest;
pub use result::{LdapResult, ResultCode};
