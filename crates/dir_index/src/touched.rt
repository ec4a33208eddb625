// Which attributes a change may touch.

ghost use Rattle.std.specs.Prelude.{◌≡◌};
ghost use Rattle.dir_index.specs.Postings.{has_type as is_type_in};
ghost use Rattle.dir_index.specs.Whole.{is_one_of};
ghost use Rattle.dir_index.specs.private.Touched.{is_whole as is_whole_in, named_in, is_touched as is_touched_by};

use index_choice::{Attribute, TypeId};

/// The attributes that a change may touch.
#[derive(Drop)]
pub enum Touched<'a> {
    All,
    /// All attributes of some types; and the values that are named, of which one side may lack some.
    These(&'a [TypeId], &'a [Attribute]),
}

/// Whether a type is one of these.
fn is_among(types: &[TypeId], type_id: TypeId) -> bool
    ensures { result ≡ is_one_of types.now type_id }
{
    types.iter().any(|one| type_id == *one)
}

/// Whether there is an attribute of the type.
pub fn has_type(attributes: &[Attribute], type_id: TypeId) -> bool
    ensures { result ≡ is_type_in type_id attributes.now }
{
    attributes
        .iter()
        .any(|attribute| attribute.type_id() == type_id)
}

/// Whether a change may touch all attributes of an attribute's type.
pub fn is_whole(touched: &Touched<'_>, attribute: &Attribute) -> bool
    ensures { result ≡ is_whole_in touched.now attribute.now.kind }
{
    match touched {
        Touched::All => true,
        Touched::These(types, _) => is_among(types, attribute.type_id()),
    }
}

/// The named values.
pub fn named<'t>(touched: &'t Touched<'_>) -> &'t [Attribute]
    ensures { result.now ≡ named_in touched.now }
{
    match touched {
        Touched::All => &[],
        Touched::These(_, named) => named,
    }
}

/// Whether a change may touch an attribute.
pub fn is_touched(touched: &Touched<'_>, attribute: &Attribute) -> bool
    ensures { result ≡ is_touched_by touched.now attribute.now.kind }
{
    is_whole(touched, attribute) || has_type(named(touched), attribute.type_id())
}
