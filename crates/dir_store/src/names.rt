//! Reads the names that updates give.
ghost use Rattle.std.specs.Prelude.{◌≡◌, Ok, None, IfOk, IfErr, string_bytes};
ghost use Rattle.std.specs.Option.{option_map};
ghost use Rattle.indexed_tree.specs.Places.{parent_of, own_rdn as own_rdn_of};
ghost use Rattle.dir_store.specs.Updates.{one_rdn as one_rdn_of, name_asked, rdn_asked, superior_asked};
ghost use Rattle.dir_store.specs.private.View.{RefusedWith};

use crate::fault::StoreError;
use entry_updates::ResultCode;
use indexed_tree::{Name, NameError, Rdn, Reply, Schema, TypeAndValue};
use std::alloc::Global;

/// The name of a text; 34 where it has none.
pub fn asked_name(alloc: Global, schema: &Schema, text: &str) -> Result<Name, StoreError>
    ensures ok { IfOk result (λ n. name_asked schema.now text.now ≡ Ok n) }
    ensures refused { IfErr result (λ e. RefusedWith e (name_asked schema.now text.now)) }
{
    match Name::read(alloc, schema, text) {
        Ok(name) => Ok(name),
        Err(NameError::BadName) => Err(StoreError::Refused(Reply::only(
            alloc,
            ResultCode::INVALID_DN_SYNTAX,
        ))),
        Err(NameError::NoMemory) => Err(StoreError::NoMemory),
    }
}

/// The last of one relative name; none, where there are none or more.
fn one_rdn(rdns: Vec<Rdn>) -> Option<Rdn>
    ensures { result ≡ one_rdn_of (Some rdns.items) }
{
    let mut rdns = rdns;
    let last = rdns.pop();
    if rdns.as_slice().is_empty() {
        last
    } else {
        None
    }
}

/// The relative name of a text; 34 where it is no name of exactly one relative name.
pub fn asked_rdn(alloc: Global, schema: &Schema, text: &str) -> Result<Rdn, StoreError>
    ensures ok { IfOk result (λ r. rdn_asked schema.now text.now ≡ Ok r) }
    ensures refused { IfErr result (λ e. RefusedWith e (rdn_asked schema.now text.now)) }
{
    let name = asked_name(alloc, schema, text)?;
    match one_rdn(name.into_rdns()) {
        Some(rdn) => Ok(rdn),
        None => Err(StoreError::Refused(Reply::only(alloc, ResultCode::INVALID_DN_SYNTAX))),
    }
}

/// The name of the new superior, where one is given; 34 where its text has none.
pub fn asked_superior(
    alloc: Global,
    schema: &Schema,
    text: &Option<String>,
) -> Result<Option<Name>, StoreError>
    ensures ok { IfOk result (λ n. superior_asked schema.now (option_map string_bytes text.now) ≡
        Ok (option_map (λ x. x) n)) }
    ensures refused { IfErr result (λ e. RefusedWith e (superior_asked schema.now (option_map string_bytes text.now))) }
{
    match text {
        None => Ok(None),
        Some(text) => Ok(Some(asked_name(alloc, schema, text)?)),
    }
}

/// The types and values of a name's own relative name, as they are spelled; none of the empty name.
pub fn own_rdn(name: &[Rdn]) -> &[TypeAndValue]
    ensures { result.now ≡ own_rdn_of name.now }
{
    match name.last() {
        Some(rdn) => rdn.types_and_values(),
        None => &[],
    }
}

/// The name right above a name; of the empty name itself.
pub fn parent_of_name(name: &[Rdn]) -> &[Rdn]
    ensures { result.now ≡ parent_of name.now }
{
    &name[..name.len().saturating_sub(1)]
}
