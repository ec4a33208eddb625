// The index choice: which kinds of index each type has.

ghost use Rattle.std.specs.Prelude.{◌≡◌, [], IfOk, IfErr};
ghost use Rattle.index_choice.specs.Choice.{kinds_of};
ghost use Rattle.index_choice.specs.Texts.{IsChoiceOf, IsFaultOf, fault_of};

use crate::choosing::kinds_of_lines;
use crate::error::IndexError;
use crate::kinds::Kinds;
use crate::reading::{check, index_lines};
use dir_entry::{Schema, TypeId};
use std::alloc::{AllocError, Global};
use std::marker::Model;

/// Which indexes each type of a schema has.
pub struct Indexes {
    /// By the number of the type; a type behind the end has none.
    kinds: Vec<Kinds>,
}

// Not derived: see "What the gate takes" in docs/ARCHITECTURE.md.
impl Drop for Indexes {
    fn drop(self) {
        let Indexes { kinds: _ } = self;
    }
}

impl Model for Indexes {
    ghost use Rattle.std.specs.Prelude.{List};
    ghost use Rattle.index_choice.specs.declared.kinds.Kinds.{Kinds};

    ghost Value = { List Kinds };

    ghost view = { λ i. i.kinds.items };
}

impl Indexes {
    /// No type has an index.
    pub fn none(alloc: Global) -> Indexes
        ensures { result ≡ [] }
    {
        Indexes {
            kinds: Vec::new(alloc),
        }
    }

    /// The index choice of a text: a line is a name or an object identifier (RFC 4512 1.4), a colon, and `pres`, `eq`,
    /// `ord` or `sub` once or more, with a space before each; a type that is named again has the indexes of all its
    /// lines. Empty lines and lines that begin with `#` are skipped. The first thing that is wrong is named with its
    /// line: the first line that is none such (E12), else the first whose name is of no type (E13), else the first that
    /// asks for an index by a rule that its type lacks (E16).
    pub fn read(alloc: Global, schema: &Schema, text: &str) -> Result<Indexes, IndexError>
        ensures found { IfOk result (IsChoiceOf schema.now text.now) }

        // A refusal is the definition's, its line too; want of memory is none.
        ensures refused { IfErr result (IsFaultOf (fault_of schema.now text.now)) }
    {
        let lines = index_lines(alloc, schema, text.as_bytes())?;
        check(schema, lines.as_slice())?;
        Ok(Indexes {
            kinds: kinds_of_lines(alloc, lines.as_slice())?,
        })
    }

    /// The indexes of a type.
    pub fn kinds(&self, type_id: TypeId) -> Kinds
        ensures { result ≡ kinds_of self.now type_id }
    {
        match self.kinds.get(type_id.number()) {
            Some(kinds) => *kinds,
            None => Kinds {
                presence: false,
                equality: false,
                ordering: false,
                substrings: false,
            },
        }
    }

    /// An equal choice.
    pub fn copy(&self, alloc: Global) -> Result<Indexes, AllocError>
        ensures { IfOk result (λ i. i ≡ self.now) }
    {
        Ok(Indexes {
            kinds: Vec::from_slice(alloc, self.kinds.as_slice())?,
        })
    }
}
