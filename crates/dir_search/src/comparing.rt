//! Answers compares.
ghost use Rattle.std.specs.Prelude.{◌≡◌, Ok, Some, IfOk, string_bytes};
ghost use Rattle.ldap_filter.specs.Item.{comparison, equal as equal_to};
ghost use Rattle.ldap_filter.specs.Tree.{item};
ghost use Rattle.ldap_filter.specs.View.{view as filter_view};
ghost use Rattle.indexed_tree.specs.directory_api.ldap_msg.View.{compare_view};
ghost use Rattle.indexed_tree.specs.directory_api.ldap_msg.ldap_requests.View.{ava_view};
ghost use Rattle.indexed_tree.specs.dir_entry.Entry.{attributes_of, IsKeyedBy};
ghost use Rattle.std.specs.List.{list_any};
ghost use Rattle.indexed_tree.specs.ldap_schema.Schema.{find, is_under};
ghost use Rattle.indexed_tree.specs.directory_api.View.{reply_view};
ghost use Rattle.indexed_tree.specs.directory_api.Answers.{only};
ghost use Rattle.indexed_tree.specs.Replies.{entry_asked};
ghost use Rattle.dir_search.specs.Compared.{code_of_truth, has_under as has_type_under, code_on_type, code_on, reply_on, compared};

use indexed_tree::{
    Attribute, AttributeValueAssertion, CompareRequest, Entry, Name, NameError, Rdn, Reading,
    Reply, ResultCode, Schema, Truth, TypeId, is_of_syntax,
};
use ldap_eval::{bind, value};
use ldap_filter::Filter;
use std::alloc::{AllocError, Global};

/// The code of a truth.
fn code_of(truth: Truth) -> ResultCode
    ensures { result ≡ code_of_truth truth }
{
    match truth {
        Truth::True => ResultCode::COMPARE_TRUE,
        Truth::False => ResultCode::COMPARE_FALSE,
        Truth::Undefined => ResultCode::INVALID_ATTRIBUTE_SYNTAX,
    }
}

/// Whether an attribute is of a type or of a subtype.
fn is_attribute_under(schema: &Schema, attribute: &Attribute, type_id: TypeId) -> bool
    ensures { result ≡ is_under schema.now attribute.now.kind type_id }
{
    schema.is_under(attribute.type_id(), type_id)
}

/// Whether one of the attributes is of a type or of a subtype.
fn is_some_under(schema: &Schema, attributes: &[Attribute], type_id: TypeId) -> bool
    ensures { result ≡ list_any (λ a. is_under schema.now a.kind type_id) attributes.now }
{
    attributes
        .iter()
        .any(|attribute| is_attribute_under(schema, attribute, type_id))
}

/// Whether an attribute of a type or of a subtype is there.
fn has_under(schema: &Schema, attributes: &[Attribute], type_id: TypeId) -> bool
    ensures { result ≡ has_type_under schema.now type_id (attributes_of attributes.now) }
{
    is_some_under(schema, attributes, type_id)
}

/// The equality item of an assertion.
fn equality(alloc: Global, ava: &AttributeValueAssertion) -> Result<Filter, AllocError>
    ensures { IfOk result (λ f. filter_view f ≡ item (comparison equal_to (string_bytes ava.now.attribute_desc)
        ava.now.assertion_value.items)) }
{
    let description = ava.attribute_desc.clone()?;
    let assertion = ava.assertion_value.as_slice().to_vec(alloc)?;
    Ok(Filter::Equal {
        description,
        assertion,
    })
}

/// The code of an assertion on an entry, where its description is a type's.
fn compare_type(
    alloc: Global,
    schema: &Schema,
    ava: &AttributeValueAssertion,
    entry: &Entry,
    type_id: TypeId,
) -> Result<ResultCode, AllocError>
    requires keyed { IsKeyedBy schema.now entry.now }
    requires named { find schema.now (string_bytes ava.now.attribute_desc) ≡ Some type_id }
    ensures { IfOk result (λ code. code ≡ code_on_type schema.now ava.now.assertion_value.items
        (attributes_of entry.now) type_id) }
{
    if !is_of_syntax(alloc, schema, type_id, &ava.assertion_value)? {
        return Ok(ResultCode::INVALID_ATTRIBUTE_SYNTAX);
    }
    if !has_under(schema, entry.attributes(), type_id) {
        return Ok(ResultCode::NO_SUCH_ATTRIBUTE);
    }
    let bound = bind(alloc, schema, &equality(alloc, ava)?)?;
    let unnamed = Name::from_rdns(Vec::new(alloc));
    Ok(code_of(value(&bound, entry, &unnamed)))
}

/// The code of an assertion on an entry.
fn compare_entry(
    alloc: Global,
    schema: &Schema,
    ava: &AttributeValueAssertion,
    entry: &Entry,
) -> Result<ResultCode, AllocError>
    requires keyed { IsKeyedBy schema.now entry.now }
    ensures { IfOk result (λ code. code ≡ code_on schema.now ava.now.assertion_value.items (attributes_of entry.now)
        (find schema.now (string_bytes ava.now.attribute_desc))) }
{
    match schema.find(&ava.attribute_desc) {
        Some(type_id) => compare_type(alloc, schema, ava, entry, type_id),
        None => Ok(ResultCode::UNDEFINED_ATTRIBUTE_TYPE),
    }
}

/// The reply of an assertion on the entry of a name.
#[tactic(auto, using(crate::proofs::Compared::replied, crate::proofs::Compared::none_asked))]
fn compare_at(
    alloc: Global,
    store: &Reading<'_>,
    name: &[Rdn],
    ava: &AttributeValueAssertion,
) -> Result<Reply, AllocError>
    ensures { IfOk result (λ r. reply_view r ≡ reply_on store.now.directory.schema (ava_view ava.now)
        (entry_asked store.now.directory name.now)) }
{
    match store.find(name) {
        Some((_, entry)) => {
            let code = compare_entry(alloc, store.schema(), ava, entry)?;
            Ok(Reply::only(alloc, code))
        }
        None => store.not_found(alloc, name),
    }
}

/// The reply to a compare (RFC 4511 4.10): 34 for a text that is no name, 32 for a name without an entry, 17 for a
/// description that is no type's, 21 for an assertion that is not in the type's syntax, 16 where the entry has no such
/// attribute, then 6 or 5; 21 where the type has no EQUALITY rule. Only want of memory is an error.
pub fn compare(
    alloc: Global,
    store: &Reading<'_>,
    request: &CompareRequest,
) -> Result<Reply, AllocError>
    ensures { IfOk result (λ r. reply_view r ≡ compared store.now.directory (compare_view request.now)) }
{
    match Name::read(alloc, store.schema(), &request.entry) {
        Ok(name) => compare_at(alloc, store, name.rdns(), &request.ava),
        Err(NameError::BadName) => Ok(Reply::only(alloc, ResultCode::INVALID_DN_SYNTAX)),
        Err(NameError::NoMemory) => Err(AllocError),
    }
}
