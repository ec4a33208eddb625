// Indexes the descriptions of a text by the words that call them.

ghost use Rattle.std.specs.Prelude.{◌≡◌, IfOk};

use crate::called::Called;
use schema_text::SchemaText;
use std::alloc::{AllocError, Global};
use std::marker::Model;

/// The descriptions of a text, which words find.
pub struct IndexedText<'a> {
    text: &'a SchemaText,
    types: Called<'a>,
    classes: Called<'a>,
}

// Not derived: see "What the gate takes" in docs/ARCHITECTURE.md.
impl<'a> Drop for IndexedText<'a> {
    fn drop(self) {
        let IndexedText {
            text: _,
            types: _,
            classes: _,
        } = self;
    }
}

impl<'a> Model for IndexedText<'a> {
    ghost use Rattle.std.specs.Prelude.{◌≡◌};
    ghost use Rattle.schema_text.specs.Texts.{SchemaTextModel};

    ghost Value = { SchemaTextModel };

    ghost view = { λ t. t.text.now };

    ghost invariant = { λ t. (t.types ≡ t.text.now.types) × (t.classes ≡ t.text.now.classes) };
}

impl<'a> IndexedText<'a> {
    /// Makes the descriptions of a text ready to be found.
    pub fn of(alloc: Global, text: &'a SchemaText) -> Result<IndexedText<'a>, AllocError>
        ensures { IfOk result (λ t. t ≡ text.now) }
    {
        let types = Called::of(alloc, text.types())?;
        let classes = Called::of(alloc, text.classes())?;
        Ok(IndexedText {
            text,
            types,
            classes,
        })
    }

    /// The descriptions of the text.
    pub fn text(&self) -> &'a SchemaText
        ensures { result.now ≡ self.now }
    {
        self.text
    }

    /// Its types.
    pub fn types(&self) -> &Called<'a>
        ensures { result.now ≡ self.now.types }
    {
        &self.types
    }

    /// Its classes.
    pub fn classes(&self) -> &Called<'a>
        ensures { result.now ≡ self.now.classes }
    {
        &self.classes
    }
}
