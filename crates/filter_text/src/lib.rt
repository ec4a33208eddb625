//! Reads and writes the texts of filters (RFC 4515, RFC 4526). What a filter means on an entry is
//! in `ldap_eval`.
//!
//! Filters as people write them (RFC 4515, RFC 4526). To print, `checking` finds out whether a text spells the filter
//! at all; `printing_value` escapes, `printing_item` and `printing` put the parts together. To read, `scanning` goes
//! over the text once, without recursion, and finds where it stops being the beginning of a filter's text. Then
//! `reading` makes the filter by bounded recursion, and `reading_item` each item.
//!
//! Proved: a filter is printed as its one text, or by E18 at 0 has none (`print_text`, `printed_is_a_text`). A text is
//! read as the one filter that it spells. Else E18 has the length of its longest front that begins some filter's text,
//! or E9 or E10 tells a limit (`read_text`, `one_filter_text`).
#![tactic(auto)]

mod checking;
mod cutting;
mod fault;
mod place;
mod printing;
mod printing_item;
mod printing_value;
mod reading;
mod reading_item;
mod reading_value;
mod scanner;
mod scanning;
mod scanning_item;
mod value_reading;

pub use fault::FilterTextError;
pub use ldap_filter::{Filter, MAX_DEPTH, MAX_ITEMS, MatchingRuleAssertion, SubstringFilter};
pub use ldap_words::{hex_digit, hex_octet, is_alpha, is_digit, is_key_octet, number_of_digits};
pub use printing::{print_text, printed_is_a_text};
pub use printing_value::is_normal;
pub use reading::{one_filter_text, read_text};
