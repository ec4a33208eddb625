//! Reads and writes search filters as octets.
//!
//! `Filter` is recursive; contracts see its tree without memory (`Tree`). An item's content and grammar are apart from
//! the filters round it (`Item`, `ItemGrammar`). "Too deep, whatever follows" is the inductive `Opens`.
//!
//! Proved: a filter of any choice of RFC 4511, within 128 levels and 512 items, is read exactly where there is one, and
//! written in its one form. A refusal has its cause (`read_filter`, `write_filter`, `one_filter`, `is_spelling`).
#![tactic(auto)]

mod copying;
mod copying_item;
mod item;
mod parts;
mod reading;
mod reading_item;
mod tree;
mod writing;
mod writing_item;

pub use copying::copy_filter;
pub use item::{MatchingRuleAssertion, SubstringFilter};
pub use ldap_ber::{
    BerFault, MsgFault, WriteError, copied, element, elements, field, flag_field, has_first,
    header, integer_field, number_field, octets_field, optional_octets, put_flag, put_number,
    put_optional_octets, put_texts, small_integer, text_field, texts_field, write, write_integer,
};
pub use reading::{MAX_DEPTH, MAX_ITEMS, one_filter, read_filter};
pub use tree::Filter;
pub use writing::{is_spelling, write_filter};
