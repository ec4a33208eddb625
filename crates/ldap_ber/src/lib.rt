//! Reads and writes elements of definite length (X.690), and the fields made of them that messages and filters share.
//!
//! An element is a first octet, the length and the content. The definitions relate octets and elements; one function on
//! lists lies between them and the code. `heading` reads a header whose element may not be whole yet. `measuring` says
//! how long an element is, so that a writer can write its head before its content.
//!
//! Each kind of field has a reader; they share the fault enum `MsgFault`. The relations (`HasField`, `HasText`,
//! `HasNumber`, ..) carry the octets that *follow*; `Seq` puts one part after another. `optional` and `rows` read
//! optional parts, rows and trailing elements.
//!
//! Proved: an element is read exactly where there is one, and each fault is given exactly where its cause is (`read`,
//! `header`, `integer`, `boolean`). The shortest spelling is written (`write`, `write_head`, `write_integer`,
//! `shortest`); it belongs to one element and begins no other (`one_spelling`). Each field is read exactly (`field`,
//! `text_field`, `number_field`, and those for optional fields, rows and trailing elements).
#![tactic(auto)]

mod fault;
mod fields;
mod heading;
mod measuring;
mod measuring_rows;
mod message_fault;
mod octets;
mod optional;
mod read_element;
mod reading;
mod rows;
mod values;
mod writing;
mod writing_fields;
mod writing_rows;

pub use fault::{BadBoolean, BadInteger, BerFault, WriteError};
pub use fields::{
    element, field, flag_field, integer_field, number_field, octets_field, small_integer, text,
    text_field,
};
pub use heading::header;
pub use measuring::{add_lengths, element_length, head_length, integer_length};
pub use measuring_rows::{number_length, values_length};
pub use message_fault::MsgFault;
pub use optional::{flag_or_false, has_first, optional_octets, optional_text};
pub use read_element::Element;
pub use reading::{one_spelling, read};
pub use rows::{elements, texts_field, texts_or_none, values_field};
pub use values::{boolean, integer};
pub use writing::{shortest, shortest_integer, write, write_head, write_integer};
pub use writing_fields::{put_flag, put_number, put_optional_octets, put_optional_text};
pub use writing_rows::{copied, put_texts, put_value_set, put_values};
