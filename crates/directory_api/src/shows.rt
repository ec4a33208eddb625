//! What is shown of attributes: the selected ones in their order, each by its type's first name.
ghost use Rattle.std.specs.Prelude.{◌≡◌, map, string_bytes, IfOk};
ghost use Rattle.std.specs.Arc.{arc_value};
ghost use Rattle.std.specs.List.{list_any};
ghost use Rattle.std.specs.Str.{str_eq_ignore_ascii_case};
ghost use Rattle.dir_tree.specs.dir_entry.Entry.{shown as without_keys, attributes_of};
ghost use Rattle.ldap_msg.specs.ldap_parts.View.{attribute_view};
ghost use Rattle.directory_api.specs.Selection.{is_selected, first_name, shown, shown_of};

use crate::selection::Selection;
use crate::shown_attribute::{ShownAttribute, copy_all};
use dir_tree::{Attribute, Schema, TypeId};
use ldap_msg::PartialAttribute;
use std::alloc::{AllocError, Global};
use std::marker::Model;
use std::sync::Arc;

/// The name that a type goes by.
fn type_name(schema: &Schema, type_id: TypeId) -> &str
    ensures { result.now ≡ first_name schema.now type_id }
{
    match schema.attribute_type(type_id) {
        None => "",
        Some(attribute_type) => match attribute_type.names() {
            [] => attribute_type.oid(),
            [first, ..] => first.as_str(),
        },
    }
}

/// What a search shows of each entry (RFC 4511 4.5.1.6 and 4.5.1.8), its selectors looked up once.
pub struct Shows {
    schema: Arc<Schema>,
    selectors: Vec<String>,
    types_only: bool,
    selection: Selection,
}

// Not derived: see "What the gate takes" in docs/ARCHITECTURE.md.
impl Drop for Shows {
    fn drop(self) {
        let Shows {
            schema: _,
            selectors: _,
            types_only: _,
            selection: _,
        } = self;
    }
}

impl Model for Shows {
    ghost use Rattle.std.specs.Prelude.{map, string_bytes};
    ghost use Rattle.std.specs.Arc.{arc_value};
    ghost use Rattle.directory_api.specs.Selection.{ShowsModel};
    ghost use Rattle.directory_api.specs.private.Resolved.{Resolves};

    ghost Value = { ShowsModel };

    ghost view = { λ s. record {
      schema = arc_value s.schema;
      selectors = map string_bytes s.selectors.items;
      types_only = s.types_only;
    } };

    ghost invariant = { λ s. Resolves (arc_value s.schema) (map string_bytes s.selectors.items) s.selection };
}

/// Whether two descriptions are one, whatever their case.
#[tactic(auto, using(crate::proofs::Selectors::same_test))]
fn is_same_description(a: &str, b: &str) -> bool
    ensures { result ≡ str_eq_ignore_ascii_case a.now b.now }
{
    a.eq_ignore_ascii_case(b)
}

/// Whether one of the selectors is a description, whatever its case.
fn is_asked(selectors: &[String], description: &str) -> bool
    ensures { result ≡ list_any (str_eq_ignore_ascii_case description.now) (map string_bytes selectors.now) }
{
    for selector in selectors {
        if is_same_description(description, selector) {
            return true;
        }
    }
    false
}

/// Copies of texts.
fn copy_texts(alloc: Global, texts: &[String]) -> Result<Vec<String>, AllocError>
    ensures { IfOk result (λ v. map string_bytes v.items ≡ map string_bytes texts.now) }
{
    let mut copies = Vec::with_capacity(alloc, texts.len())?;
    for text in texts {
        copies.push(String::from_str(alloc, text)?)?;
    }
    Ok(copies)
}

impl Shows {
    /// What these selectors have shown, by this schema; with `types_only` no values. Its only error is want of memory.
    pub fn new(
        alloc: Global,
        schema: Arc<Schema>,
        selectors: &[String],
        types_only: bool,
    ) -> Result<Shows, AllocError>
        ensures { IfOk result (λ s. s ≡ record {
          schema = arc_value schema;
          selectors = map string_bytes
              selectors.now;
          types_only = types_only;
        }) }
    {
        let selection = Selection::of(alloc, &schema, selectors)?;
        let selectors = copy_texts(alloc, selectors)?;
        Ok(Shows {
            schema,
            selectors,
            types_only,
            selection,
        })
    }

    /// Whether an attribute is selected.
    fn has(&self, attribute: &Attribute) -> bool
        ensures { result ≡ is_selected self.now.schema self.now.selectors attribute.now.kind }
    {
        self.selection.has(&self.schema, attribute.type_id())
    }

    /// What is shown of an attribute.
    fn show<'a>(&'a self, attribute: &'a Attribute) -> ShownAttribute<'a>
        ensures { result ≡ shown self.now.schema self.now.types_only (without_keys attribute.now) }
    {
        let description = type_name(&self.schema, attribute.type_id());
        if self.types_only {
            ShownAttribute::without_values(description)
        } else {
            ShownAttribute::with_values(description, attribute)
        }
    }

    /// What is shown of attributes.
    pub fn show_all<'a>(
        &'a self,
        alloc: Global,
        attributes: &'a [Attribute],
    ) -> Result<Vec<ShownAttribute<'a>>, AllocError>
        ensures { IfOk result (λ v. v.items ≡ shown_of self.now (attributes_of attributes.now)) }
    {
        let mut all = Vec::with_capacity(alloc, attributes.len())?;
        for attribute in attributes {
            if self.has(attribute) {
                all.push(self.show(attribute))?;
            }
        }
        Ok(all)
    }

    /// Copies of what is shown of attributes.
    pub fn copy_shown(
        &self,
        alloc: Global,
        attributes: &[Attribute],
    ) -> Result<Vec<PartialAttribute>, AllocError>
        ensures { IfOk result (λ v. map attribute_view v.items ≡ shown_of self.now (attributes_of attributes.now)) }
    {
        let shown = self.show_all(alloc, attributes)?;
        copy_all(alloc, &shown)
    }

    /// Whether a selector is this description, whatever its case.
    pub fn asks_for(&self, description: &str) -> bool
        ensures { result ≡ list_any (str_eq_ignore_ascii_case description.now) self.now.selectors }
    {
        is_asked(&self.selectors, description)
    }
}
