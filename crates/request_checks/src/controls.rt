//! Judges the controls of a request: takes what they name, or refuses the request.
ghost use Rattle.std.specs.Prelude.{◌≡◌, ◌∷◌, [], ◌&&◌, not, filter, map, Result, MatchResult};
ghost use Rattle.std.specs.Option.{option_map, option_copied, option_to_list};
ghost use Rattle.request_checks.specs.Numbers.{number_of, pair_of};
ghost use Rattle.std.specs.Str.{bytes_eq};
ghost use Rattle.ldap_msg.specs.ldap_parts.View.{control_view};
ghost use Rattle.request_checks.specs.Controls.{number_control, request_control, is_of, has_meaning, is_unavailable, value_of, number_named, request_named, named_in, judged};
ghost use Rattle.request_checks.specs.private.Controls.{AreRepeated};

use crate::numbers::{number_of, pair_of};
use ldap_msg::{Control, ResultCode};

/// The control that names the number of an update.
pub const NUMBER_CONTROL: &str = "2.25.20120101";

/// The control that names a client and the number of its request.
const REQUEST_CONTROL: &str = "2.25.20120102";

/// What a request is to its controls.
#[derive(Clone, Copy, Debug, PartialEq, Eq)]
pub enum Kind {
    /// A search or a compare.
    Read,
    /// A request for an update.
    Update,
    Other,
}

/// What the controls of a request name.
#[derive(Clone, Copy, Debug, PartialEq, Eq)]
pub struct Named {
    /// The number of an update.
    pub number: Option<u64>,
    /// A client, and the number of its request.
    pub request: Option<(u64, u64)>,
}

/// Whether a control is of this type.
fn is_of(oid: &str, control: &Control) -> bool
    ensures { result ≡ is_of oid.now (control_view control.now) }
{
    control.control_type.as_str() == oid
}

/// Whether a control has a meaning on a request of this kind.
fn has_meaning(kind: Kind, control: &Control) -> bool
    ensures { result ≡ has_meaning kind (control_view control.now) }
{
    match kind {
        Kind::Read => is_of(NUMBER_CONTROL, control),
        Kind::Update => is_of(NUMBER_CONTROL, control) || is_of(REQUEST_CONTROL, control),
        Kind::Other => false,
    }
}

/// Whether a control is critical and has no meaning on a request of this kind.
fn is_refused(kind: Kind, control: &Control) -> bool
    ensures { result ≡ ((control_view control.now).criticality && not (has_meaning kind (control_view control.now))) }
{
    control.criticality && !has_meaning(kind, control)
}

/// Whether some control is critical and has no meaning on a request of this kind.
#[tactic(auto, using(crate::proofs::Given::any_more))]
fn is_unavailable(kind: Kind, controls: &[Control]) -> bool
    ensures { result ≡ is_unavailable kind (map control_view controls.now) }
{
    for control in controls {
        if is_refused(kind, control) {
            return true;
        }
    }
    false
}

/// The one control of a type, if there is one; protocolError for two.
fn given<'a>(oid: &str, controls: &'a [Control]) -> Result<Option<&'a Control>, ResultCode>
    ensures { MatchResult result
        (λ found. filter (is_of oid.now) (map control_view controls.now) ≡ option_to_list
        (option_map control_view (option_copied found)))
        (λ e. (e ≡ 2) × AreRepeated (filter (is_of oid.now) (map control_view controls.now))) }
{
    let mut found: Option<&Control> = None;
    for control in controls {
        if is_of(oid, control) {
            match found {
                Some(_) => return Err(ResultCode::PROTOCOL_ERROR),
                None => found = Some(control),
            }
        }
    }
    Ok(found)
}

/// The value of a control; protocolError without one.
fn value_of(control: &Control) -> Result<&[u8], ResultCode>
    ensures { MatchResult result (λ v. (control_view control.now).value ≡ Some v.now)
        (λ e. (e ≡ 2) × ((control_view control.now).value ≡ None)) }
{
    match &control.value {
        Some(value) => Ok(value.as_slice()),
        None => Err(ResultCode::PROTOCOL_ERROR),
    }
}

/// The number that a control names; protocolError where it names none.
fn number_in(control: &Control) -> Result<Option<u64>, ResultCode>
    ensures { result ≡ value_of number_of (control_view control.now).value }
{
    let value = value_of(control)?;
    match number_of(value) {
        Some(number) => Ok(Some(number)),
        None => Err(ResultCode::PROTOCOL_ERROR),
    }
}

/// The client and the number that a control names; protocolError where it names none.
fn request_in(control: &Control) -> Result<Option<(u64, u64)>, ResultCode>
    ensures { result ≡ value_of pair_of (control_view control.now).value }
{
    let value = value_of(control)?;
    match pair_of(value) {
        Some(request) => Ok(Some(request)),
        None => Err(ResultCode::PROTOCOL_ERROR),
    }
}

/// The number that the controls of a request name.
fn number_named(controls: &[Control]) -> Result<Option<u64>, ResultCode>
    ensures { result ≡ number_named (map control_view controls.now) }
{
    match given(NUMBER_CONTROL, controls)? {
        Some(control) => number_in(control),
        None => Ok(None),
    }
}

/// The client and the number of its request that the controls of a request name.
fn request_named(controls: &[Control]) -> Result<Option<(u64, u64)>, ResultCode>
    ensures { result ≡ request_named (map control_view controls.now) }
{
    match given(REQUEST_CONTROL, controls)? {
        Some(control) => request_in(control),
        None => Ok(None),
    }
}

/// What the controls of a request name that have a meaning there.
fn named_in(kind: Kind, controls: &[Control]) -> Result<Named, ResultCode>
    ensures { result ≡ named_in kind (map control_view controls.now) }
{
    match kind {
        Kind::Read => Ok(Named {
            number: number_named(controls)?,
            request: None,
        }),
        Kind::Update => {
            let number = number_named(controls)?;
            let request = request_named(controls)?;
            Ok(Named { number, request })
        }
        Kind::Other => Ok(Named {
            number: None,
            request: None,
        }),
    }
}

/// What the controls of a request come to: what they name; or the code that refuses it, unavailableCriticalExtension
/// for a critical one without a meaning there, else protocolError for one with a meaning that is repeated or can't be
/// read. It takes no memory.
pub fn judge(kind: Kind, controls: &[Control]) -> Result<Named, ResultCode>
    ensures { result ≡ judged kind (map control_view controls.now) }
{
    if is_unavailable(kind, controls) {
        Err(ResultCode::UNAVAILABLE_CRITICAL_EXTENSION)
    } else {
        named_in(kind, controls)
    }
}
