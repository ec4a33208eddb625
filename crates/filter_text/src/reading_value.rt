//! Reads values and names.

ghost use Rattle.std.specs.Prelude.{◌≡◌, ◌<◌, ◌++◌, ◌∷◌, [], None, Some, true, string_bytes, IfOk, IfErr, OnOk};
ghost use Rattle.std.specs.List.{list_all};
ghost use Rattle.filter_text.specs.private.Cuts.{is_name_octet};
ghost use Rattle.filter_text.specs.private.Reads.{PartFault};
ghost use Rattle.filter_text.specs.private.Scanned.{turn as turn_from, value_of};
ghost use Rattle.filter_text.specs.declared.value_reading.ValueState.TheVariants.{Between};

use crate::fault::FilterTextError;
use crate::printing_value::is_normal;
use crate::value_reading::{Turn, ValueState};
use ldap_words::hex_octet;
use std::alloc::{AllocError, Global};

/// What an octet does between octets of the value.
fn begin(octet: u8) -> Turn
    ensures { result ≡ turn_from Between octet }
{
    if octet == b'\\' {
        Turn::Reads(ValueState::Escape)
    } else if is_normal(octet) {
        Turn::Gives(octet)
    } else {
        Turn::Refuses
    }
}

/// What an octet does where the reader stands so.
fn turn(reading: ValueState, octet: u8) -> Turn
    ensures { result ≡ turn_from reading octet }
{
    match reading {
        ValueState::Between => begin(octet),
        ValueState::Escape => Turn::Reads(ValueState::Half(octet)),
        ValueState::Half(high) => match hex_octet(high, octet) {
            Some(spelled) => Turn::Gives(spelled),
            None => Turn::Refuses,
        },
    }
}

/// The value that a text spells (RFC 4515 3, valueencoding).
pub fn value(alloc: Global, text: &[u8]) -> Result<Vec<u8>, FilterTextError>
    ensures found { IfOk result (λ v. value_of text.now ≡ Some v.items) }
    ensures fault { IfErr result (λ e. PartFault e (value_of text.now ≡ None)) }
{
    let mut value = Vec::new(alloc);
    let mut reading = ValueState::Between;
    for octet in text {
        match turn(reading, *octet) {
            Turn::Refuses => return Err(FilterTextError::BadFilterText { at: 0 }),
            Turn::Reads(next) => reading = next,
            Turn::Gives(given) => {
                value.push(given)?;
                reading = ValueState::Between;
            }
        }
    }
    match reading {
        ValueState::Between => Ok(value),
        ValueState::Escape | ValueState::Half(_) => Err(FilterTextError::BadFilterText { at: 0 }),
    }
}

/// Puts an ASCII octet.
fn put_ascii(out: &mut String, octet: u8) -> Result<(), AllocError>
    requires { octet < 128 }
    ensures { OnOk result (string_bytes out.new ≡ string_bytes out.old ++ octet ∷ []) }
{
    out.push(char::from(octet))
}

/// A description or a rule as text.
pub fn text(alloc: Global, octets: &[u8]) -> Result<String, FilterTextError>
    requires { list_all is_name_octet octets.now ≡ true }
    ensures found { IfOk result (λ t. string_bytes t ≡ octets.now) }
    ensures fault { IfErr result (λ e. e ≡ FilterTextError.NoMemory) }
{
    let mut out = String::new(alloc);
    for octet in octets {
        put_ascii(&mut out, *octet)?;
    }
    Ok(out)
}
