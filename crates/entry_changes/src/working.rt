// An entry while it is modified.

ghost use Rattle.std.specs.Prelude.{◌≡◌, IfOk};

use crate::opened::Opened;
use dir_entry::{Attribute, Entry};
use std::alloc::{AllocError, Global};
use std::marker::Model;

/// An entry while it is modified: changes of one attribute after the other cost what they ask for, and not what the
/// entry holds.
#[derive(Drop)]
pub struct Working {
    attributes: Vec<Opened>,
}

impl Model for Working {
    ghost use Rattle.std.specs.Prelude.{List};
    ghost use Rattle.dir_entry.specs.Entry.{KeyedAttribute};

    ghost Value = { List KeyedAttribute };

    ghost view = { λ w. w.attributes.items };
}

/// The attributes, each of which may be changed from now on.
fn opened(alloc: Global, attributes: Vec<Attribute>) -> Result<Vec<Opened>, AllocError>
    ensures { IfOk result (λ v. v.items ≡ attributes.items) }
{
    let mut opened = Vec::with_capacity(alloc, attributes.as_slice().len())?;
    for attribute in attributes {
        opened.push(Opened::of(attribute))?;
    }
    Ok(opened)
}

/// The attributes as they are now.
fn closed(alloc: Global, attributes: Vec<Opened>) -> Result<Vec<Attribute>, AllocError>
    ensures { IfOk result (λ v. v.items ≡ attributes.items) }
{
    let mut closed = Vec::with_capacity(alloc, attributes.as_slice().len())?;
    for attribute in attributes {
        closed.push(attribute.into_attribute(alloc)?)?;
    }
    Ok(closed)
}

impl Working {
    /// The entry, which may be changed from now on.
    pub fn of(alloc: Global, entry: Entry) -> Result<Working, AllocError>
        ensures { IfOk result (λ w. w ≡ entry) }
    {
        Ok(Working {
            attributes: opened(alloc, entry.into_attributes())?,
        })
    }

    /// The entry as it is now.
    pub fn into_entry(self, alloc: Global) -> Result<Entry, AllocError>
        ensures { IfOk result (λ e. e ≡ self) }
    {
        Ok(Entry::from_attributes(closed(alloc, self.attributes)?))
    }

    /// An entry of these attributes, in their order.
    pub fn from_attributes(attributes: Vec<Opened>) -> Working
        ensures { result ≡ attributes.items }
    {
        Working { attributes }
    }

    /// The attributes in order, out of the entry.
    pub fn into_attributes(self) -> Vec<Opened>
        ensures { result.items ≡ self }
    {
        self.attributes
    }
}
