//! A description in its parts.

ghost use Rattle.std.specs.Prelude.{◌≡◌, map, option_map};
ghost use Rattle.schema_text.specs.Keywords.{place_of};
ghost use Rattle.schema_text.specs.Descriptions.{texts_at, first_text_at, has_field_at};

use crate::keyword::{Keyword, place};
use std::marker::Model;

/// A field of a description: its keyword, and the texts of its argument.
pub struct Field {
    pub(crate) keyword: Keyword,
    pub(crate) texts: Vec<Vec<u8>>,
}

// Not derived: see "What the gate takes" in docs/ARCHITECTURE.md.
impl Drop for Field {
    fn drop(self) {
        let Field {
            keyword: _,
            texts: _,
        } = self;
    }
}

impl Model for Field {
    ghost use Rattle.std.specs.Prelude.{map};
    ghost use Rattle.schema_text.specs.Descriptions.{FieldModel};

    ghost Value = { FieldModel };

    ghost view = { λ f. record { keyword = f.keyword; texts = map (λ v. v.items) f.texts.items } };
}

impl Field {
    /// The keyword.
    pub fn keyword(&self) -> Keyword
        ensures { result ≡ self.now.keyword }
    {
        self.keyword
    }

    /// The texts of the argument: names, object identifiers or texts, in the order written.
    pub fn texts(&self) -> &[Vec<u8>]
        ensures { map (λ v. v.items) result.now ≡ self.now.texts }
    {
        self.texts.as_slice()
    }
}

/// A description of an attribute type or an object class (RFC 4512 4.1.1, 4.1.2).
pub struct Description {
    pub(crate) line: usize,
    pub(crate) oid: Vec<u8>,
    pub(crate) fields: Vec<Field>,
}

// Not derived: see "What the gate takes" in docs/ARCHITECTURE.md.
impl Drop for Description {
    fn drop(self) {
        let Description {
            line: _,
            oid: _,
            fields: _,
        } = self;
    }
}

impl Model for Description {
    ghost use Rattle.schema_text.specs.Descriptions.{DescriptionModel};

    ghost Value = { DescriptionModel };

    ghost view = { λ d. record { line = d.line; oid = d.oid.items; fields = d.fields.items } };
}

impl Description {
    /// The number of the line that it stands in, from 1.
    pub fn line(&self) -> usize
        ensures { result ≡ self.now.line }
    {
        self.line
    }

    /// The object identifier in dotted form.
    pub fn oid(&self) -> &[u8]
        ensures { result.now ≡ self.now.oid }
    {
        self.oid.as_slice()
    }

    /// The texts of the argument of a keyword's field; none, where there is no such field.
    pub fn texts(&self, keyword: Keyword) -> &[Vec<u8>]
        ensures { map (λ v. v.items) result.now ≡ texts_at (place_of keyword) self.now.fields }
    {
        texts_in(self.fields.as_slice(), keyword)
    }

    /// The first text of the argument of a keyword's field.
    pub fn text(&self, keyword: Keyword) -> Option<&[u8]>
        ensures { option_map (λ x. x.now) result ≡ first_text_at (place_of keyword) self.now.fields }
    {
        match self.texts(keyword) {
            [] => None,
            [first, ..] => Some(first.as_slice()),
        }
    }

    /// Whether there is a field of the keyword, or of another one in its place.
    pub fn has(&self, keyword: Keyword) -> bool
        ensures { result ≡ has_field_at (place_of keyword) self.now.fields }
    {
        has_field_in(self.fields.as_slice(), keyword)
    }

    /// The fields in the order written.
    pub fn fields(&self) -> &[Field]
        ensures { result.now ≡ self.now.fields }
    {
        self.fields.as_slice()
    }
}

/// The texts of the first field in the keyword's place.
fn texts_in(fields: &[Field], keyword: Keyword) -> &[Vec<u8>]
    ensures { map (λ v. v.items) result.now ≡ texts_at (place_of keyword) fields.now }
{
    for field in fields {
        if place(field.keyword()) == place(keyword) {
            return field.texts();
        }
    }
    &[]
}

/// Whether a field stands in the keyword's place.
fn has_field_in(fields: &[Field], keyword: Keyword) -> bool
    ensures { result ≡ has_field_at (place_of keyword) fields.now }
{
    for field in fields {
        if place(field.keyword()) == place(keyword) {
            return true;
        }
    }
    false
}
