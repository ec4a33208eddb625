//! Decides which types the selectors of a search select.
ghost use Rattle.std.specs.Prelude.{◌≡◌, ◌||◌, ℕ, length, map, IfOk, OnOk, string_bytes};
ghost use Rattle.std.specs.List.{list_any};
ghost use Rattle.dir_tree.specs.ldap_schema.Schema.{find, superior_of, superiors};
ghost use Rattle.directory_api.specs.Selection.{is_named_by, is_selected_by};
ghost use Rattle.directory_api.specs.private.Resolved.{Resolves, is_held, is_none, picks, picks_named};

use dir_tree::{Schema, TypeId};
use std::alloc::{AllocError, Global};
use std::collections::BTreeSet;

/// What selectors select (RFC 4511 4.5.1.8), so that a type costs its chain of SUPs and not a walk over the selectors.
pub struct Selection {
    /// Whether every type is selected.
    pub all: bool,
    /// The numbers of the types that are named.
    pub types: BTreeSet<usize>,
}

// Not derived: see "What the gate takes" in docs/ARCHITECTURE.md.
impl Drop for Selection {
    fn drop(self) {
        let Selection { all: _, types: _ } = self;
    }
}

/// The type that the type's SUP names.
fn superior(schema: &Schema, type_id: TypeId) -> Option<TypeId>
    ensures { result ≡ superior_of schema.now.types type_id }
{
    match schema.attribute_type(type_id) {
        Some(found) => found.superior(),
        None => None,
    }
}

/// Whether the number of a type is in a set.
fn has_number(types: &BTreeSet<usize>, type_id: TypeId) -> bool
    ensures { result ≡ is_held types.now type_id }
{
    types.contains(&type_id.number())
}

/// Whether the type's SUP leads to a type of a set.
fn leads_to_some(schema: &Schema, types: &BTreeSet<usize>, type_id: TypeId) -> bool
    ensures { result ≡ list_any (is_held types.now) (superiors (length schema.now.types) schema.now.types type_id) }
{
    let mut current = type_id;
    for _ in 0..schema.count_of_types() {
        match superior(schema, current) {
            None => return false,
            Some(above) => {
                if has_number(types, above) {
                    return true;
                }
                current = above;
            }
        }
    }
    false
}

/// Adds the type of a description to a set; nothing, where it stands for none.
fn name_type(
    schema: &Schema,
    types: &mut BTreeSet<usize>,
    description: &str,
) -> Result<(), AllocError>
    ensures { OnOk result ((t : ℕ) → picks_named schema.now types.new t ≡
        (picks_named schema.now types.old t || is_named_by schema.now t (find schema.now description.now))) }
{
    if let Some(named) = schema.find(description) {
        types.insert(named.number())?;
    }
    Ok(())
}

/// Whether there is no selector.
fn are_none(selectors: &[String]) -> bool
    ensures { result ≡ is_none selectors.now }
{
    match selectors {
        [] => true,
        [_, ..] => false,
    }
}

impl Selection {
    /// Adds what a selector selects.
    fn take_up(&mut self, schema: &Schema, selector: &str) -> Result<(), AllocError>
        ensures { OnOk result ((t : ℕ) → picks schema.now self.new t ≡ (picks schema.now self.old t || is_selected_by
            schema.now t selector.now)) }
    {
        if selector == "*" {
            self.all = true;
            return Ok(());
        }
        if selector == "1.1" {
            return Ok(());
        }
        name_type(schema, &mut self.types, selector)
    }

    /// What these selectors select. Its only error is want of memory.
    pub fn of(alloc: Global, schema: &Schema, selectors: &[String]) -> Result<Selection, AllocError>
        ensures { IfOk result (λ n. Resolves schema.now (map string_bytes selectors.now) n) }
    {
        let mut selection = Selection {
            all: are_none(selectors),
            types: BTreeSet::new(alloc),
        };
        for selector in selectors {
            selection.take_up(schema, selector)?;
        }
        Ok(selection)
    }

    /// Whether a type is selected.
    pub fn has(&self, schema: &Schema, type_id: TypeId) -> bool
        ensures { result ≡ picks schema.now self.now type_id }
    {
        self.all || has_number(&self.types, type_id) || leads_to_some(schema, &self.types, type_id)
    }
}
