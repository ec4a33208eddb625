// Finds the descriptions that words call.

ghost use Rattle.std.specs.Prelude.{◌≡◌, map};
ghost use Rattle.schema_meaning.specs.Naming as naming;

use crate::called::Called;
use schema_text::{Description, Keyword};

/// The names of a description, in the order written.
pub fn names(description: &Description) -> &[Vec<u8>]
    ensures { map (λ v. v.items) result.now ≡ naming.names_of description.now }
{
    description.texts(Keyword::Name)
}

/// The number of the type that the SUP of a type names.
pub fn superior_of(types: &Called, description: &Description) -> Option<usize>
    ensures { result ≡ naming.superior_of types.now description.now }
{
    match description.text(Keyword::Sup) {
        Some(word) => types.find(word),
        None => None,
    }
}
