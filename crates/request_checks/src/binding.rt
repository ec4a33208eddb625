//! Judges a bind by the manager's name and password.
ghost use Rattle.std.specs.Prelude.{◌≡◌, IfOk};
ghost use Rattle.dir_entry.specs.ldap_dn.Texts.{name_of_text};
ghost use Rattle.ldap_msg.specs.View.{bind_view};
ghost use Rattle.ldap_msg.specs.ldap_requests.View.{authentication_view};
ghost use Rattle.request_checks.specs.Binding.{is_name_of, bound_without_password, bound_with_password, bound_by, bound};

use crate::bound::Bound;
use crate::identity::Identity;
use crate::sameness::is_same;
use dir_entry::{Name, NameError, Schema, are_same};
use ldap_msg::{AuthenticationChoice, BindRequest, ResultCode};
use std::alloc::{AllocError, Global};

/// An anonymous session, with this code.
fn anonymous(code: ResultCode) -> Bound
    ensures { result ≡ record { identity = Identity.Anonymous; code = code } }
{
    Bound {
        identity: Identity::Anonymous,
        code,
    }
}

/// A simple bind without a password.
fn bind_without_password(name: &str) -> Bound
    ensures { result ≡ bound_without_password name.now }
{
    if name.is_empty() {
        anonymous(ResultCode::SUCCESS)
    } else {
        anonymous(ResultCode::UNWILLING_TO_PERFORM)
    }
}

/// Whether a text's name is the manager's, whatever its spelling.
fn is_manager(
    alloc: Global,
    schema: &Schema,
    manager: &Name,
    name: &str,
) -> Result<bool, AllocError>
    ensures { IfOk result (λ b. b ≡ is_name_of manager.now (name_of_text schema.now name.now)) }
{
    match Name::read(alloc, schema, name) {
        Ok(name) => Ok(are_same(name.rdns(), manager.rdns())),
        Err(NameError::BadName) => Ok(false),
        Err(NameError::NoMemory) => Err(AllocError),
    }
}

/// A simple bind with a password.
fn bind_with_password(
    alloc: Global,
    schema: &Schema,
    manager: &Name,
    manager_password: &[u8],
    name: &str,
    password: &[u8],
) -> Result<Bound, AllocError>
    ensures { IfOk result (λ b. b ≡ bound_with_password schema.now manager.now manager_password.now name.now
        password.now) }
{
    // Both are asked, so that the time doesn't tell which of them is wrong.
    let is_password = is_same(password, manager_password);
    let is_name = is_manager(alloc, schema, manager, name)?;
    if is_password && is_name {
        Ok(Bound {
            identity: Identity::Manager,
            code: ResultCode::SUCCESS,
        })
    } else {
        Ok(anonymous(ResultCode::INVALID_CREDENTIALS))
    }
}

/// A bind of version 3 by its authentication.
fn bind_by(
    alloc: Global,
    schema: &Schema,
    manager: &Name,
    manager_password: &[u8],
    name: &str,
    authentication: &AuthenticationChoice,
) -> Result<Bound, AllocError>
    ensures { IfOk result (λ b. b ≡ bound_by schema.now manager.now manager_password.now name.now
        (authentication_view authentication.now)) }
{
    match authentication {
        AuthenticationChoice::Simple(password) => {
            if password.is_empty() {
                Ok(bind_without_password(name))
            } else {
                bind_with_password(alloc, schema, manager, manager_password, name, password)
            }
        }
        AuthenticationChoice::Sasl(_) => Ok(anonymous(ResultCode::AUTH_METHOD_NOT_SUPPORTED)),
    }
}

/// What a bind comes to, where the manager has this name and password.
pub fn bind(
    alloc: Global,
    schema: &Schema,
    manager: &Name,
    manager_password: &[u8],
    request: &BindRequest,
) -> Result<Bound, AllocError>
    ensures { IfOk result (λ b. b ≡ bound schema.now manager.now manager_password.now (bind_view request.now)) }
{
    if request.version == 3 {
        bind_by(
            alloc,
            schema,
            manager,
            manager_password,
            &request.name,
            &request.authentication,
        )
    } else {
        Ok(anonymous(ResultCode::PROTOCOL_ERROR))
    }
}
