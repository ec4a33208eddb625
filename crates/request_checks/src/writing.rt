//! Writes responses as messages, a vector of octets each.
ghost use Rattle.std.specs.Prelude.{◌≡◌, ◌≤◌, ◌^◌, ◌∷◌, [], map, length, decimal, string_bytes, Some, IfOk, IsErrOf};
ghost use Rattle.std.specs.Option.{option_map};
ghost use Rattle.ldap_msg.specs.View.{response_view, result_view, control_view};
ghost use Rattle.ldap_msg.specs.Written.{message_bytes, message_content};
ghost use Rattle.request_checks.specs.Messages.{message, referral_to, number_told, value_for};
ghost use Rattle.request_checks.specs.Requests.{response_to};

use crate::controls::NUMBER_CONTROL;
use crate::fault::AnswerError;
use crate::requests::Answering;
use ldap_msg::{
    Control, EncodeError, ExtendedResponse, LdapResult, Message, ProtocolOp, Response, ResultCode,
    encode,
};
use std::alloc::{AllocError, Global};

/// A referral to one URI.
pub fn referral_to(alloc: Global, uri: String) -> Result<LdapResult, AllocError>
    ensures { IfOk result (λ r. result_view r ≡ referral_to (string_bytes uri)) }
{
    let mut referral = Vec::new(alloc);
    referral.push(uri)?;
    Ok(LdapResult {
        code: ResultCode::REFERRAL,
        matched_dn: String::new(alloc),
        diagnostic_message: String::new(alloc),
        referral,
    })
}

/// A number as text.
fn decimal_of(alloc: Global, number: u64) -> Result<Vec<u8>, AllocError>
    ensures { IfOk result (λ v. v.items ≡ decimal number) }
{
    let text = format!(in alloc; "{number}")?;
    Ok(text.into_bytes())
}

/// The control that tells a number.
fn number_control(alloc: Global, number: u64) -> Result<Control, AllocError>
    ensures { IfOk result (λ c. control_view c ∷ [] ≡ number_told (Some 0) number) }
{
    let control_type = String::from_str(alloc, NUMBER_CONTROL)?;
    let value = decimal_of(alloc, number)?;
    Ok(Control {
        control_type,
        criticality: false,
        value: Some(value),
    })
}

/// The control that tells a number, where the request named one.
fn number_told(alloc: Global, asked: Option<u64>, number: u64) -> Result<Vec<Control>, AllocError>
    ensures { IfOk result (λ v. map control_view v.items ≡ number_told asked number) }
{
    let mut controls = Vec::new(alloc);
    if asked.is_some() {
        controls.push(number_control(alloc, number)?)?;
    }
    Ok(controls)
}

/// The value of the response to an update that is an extended request: its number.
pub fn value_for(
    alloc: Global,
    answering: Answering,
    number: u64,
) -> Result<Option<Vec<u8>>, AllocError>
    ensures { IfOk result (λ o. option_map (λ v. v.items) o ≡ value_for answering number) }
{
    match answering {
        Answering::Extended => Ok(Some(decimal_of(alloc, number)?)),
        Answering::Bind
        | Answering::Search
        | Answering::Modify
        | Answering::Add
        | Answering::Delete
        | Answering::ModifyDn
        | Answering::Compare => Ok(None),
    }
}

/// A result in a response of this kind; the value is an extended response's alone.
pub fn response_to(answering: Answering, outcome: LdapResult, value: Option<Vec<u8>>) -> Response
    ensures { response_view result ≡ response_to answering (result_view outcome) (option_map (λ v. v.items) value) }
{
    match answering {
        Answering::Bind => Response::Bind(outcome),
        Answering::Search => Response::SearchDone(outcome),
        Answering::Modify => Response::Modify(outcome),
        Answering::Add => Response::Add(outcome),
        Answering::Delete => Response::Delete(outcome),
        Answering::ModifyDn => Response::ModifyDn(outcome),
        Answering::Compare => Response::Compare(outcome),
        Answering::Extended => Response::Extended(ExtendedResponse {
            result: outcome,
            response_name: None,
            response_value: value,
        }),
    }
}

/// A response, written.
fn write_message(
    alloc: Global,
    id: u32,
    response: Response,
    controls: Vec<Control>,
) -> Result<Vec<u8>, AnswerError>
    ensures ok { IfOk result (λ octets. octets.items ≡ message_bytes (message id (response_view response)
        (map control_view controls.items))) }
    ensures too_long { IsErrOf result AnswerError.TooLong
        → 2 ^ 32 ≤ length (message_content (message id (response_view response) (map control_view controls.items))) }
{
    let message = Message {
        id,
        op: ProtocolOp::Response(response),
        controls,
    };
    encode(alloc, &message).map_err(|error| match error {
        EncodeError::TooLong => AnswerError::TooLong,
        EncodeError::NoMemory => AnswerError::NoMemory,
    })
}

/// A response without controls, written.
pub fn write_plain(alloc: Global, id: u32, response: Response) -> Result<Vec<u8>, AnswerError>
    ensures ok { IfOk result (λ octets. octets.items ≡ message_bytes (message id (response_view response) [])) }
    ensures too_long { IsErrOf result AnswerError.TooLong →
        2 ^ 32 ≤ length (message_content (message id (response_view response) [])) }
{
    write_message(alloc, id, response, Vec::new(alloc))
}

/// A response with a number, where the request named one, written.
pub fn write_numbered(
    alloc: Global,
    id: u32,
    response: Response,
    asked: Option<u64>,
    number: u64,
) -> Result<Vec<u8>, AnswerError>
    ensures ok { IfOk result (λ octets. octets.items ≡ message_bytes (message id (response_view response)
        (number_told asked number))) }
    ensures too_long { IsErrOf result AnswerError.TooLong
        → 2 ^ 32 ≤ length (message_content (message id (response_view response) (number_told asked number))) }
{
    let controls = number_told(alloc, asked, number)?;
    write_message(alloc, id, response, controls)
}
