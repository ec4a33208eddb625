// Lists of values with what is kept beside them.

ghost use Rattle.std.specs.Prelude.{◌≡◌, ◌++◌, take, drop, IfOk, OnOk};
ghost use Rattle.std.specs.List.{list_any};
ghost use Rattle.std.specs.Str.{bytes_eq};
ghost use Rattle.value_parts.specs.KeptParts.{as_part, octets_in, HaveTexts};
ghost use Rattle.value_parts.specs.Picked.{picked as picked_by};

use crate::part::Part;
use ldap_match::{Form, Key};
use shared_map::{Octets, Shared};
use std::alloc::{AllocError, Global};

/// Values, with a key and the texts of each.
pub struct Lists {
    pub values: Vec<Octets>,
    /// None, where the type of the values lacks an EQUALITY rule.
    pub keys: Vec<Key>,
    pub forms: Vec<Form>,
}

// Not derived: see "What the gate takes" in docs/ARCHITECTURE.md.
impl Drop for Lists {
    fn drop(self) {
        let Lists {
            values: _,
            keys: _,
            forms: _,
        } = self;
    }
}

impl Lists {
    /// These, and the others after them.
    pub fn joined(self, other: Lists) -> Result<Lists, AllocError>
        ensures values { IfOk result (λ l. l.values.items ≡ self.values.items ++ other.values.items) }
        ensures keys { IfOk result (λ l. l.keys.items ≡ self.keys.items ++ other.keys.items) }
        ensures forms { IfOk result (λ l. l.forms.items ≡ self.forms.items ++ other.forms.items) }
        ensures texts { HaveTexts (as_part self) → HaveTexts (as_part other) → IfOk result (λ l. HaveTexts (as_part l)) }
    {
        let Lists {
            mut values,
            mut keys,
            mut forms,
        } = self;
        let Lists {
            values: mut more,
            keys: mut more_keys,
            forms: mut more_forms,
        } = other;
        values.append(&mut more)?;
        keys.append(&mut more_keys)?;
        forms.append(&mut more_forms)?;
        Ok(Lists {
            values,
            keys,
            forms,
        })
    }

    /// Those that are marked.
    pub fn picked(self, alloc: Global, marks: &[bool]) -> Result<Lists, AllocError>
        ensures values { IfOk result (λ l. l.values.items ≡ picked_by marks.now self.values.items) }
        ensures keys { IfOk result (λ l. l.keys.items ≡ picked_by marks.now self.keys.items) }
        ensures forms { IfOk result (λ l. l.forms.items ≡ picked_by marks.now self.forms.items) }
    {
        let Lists {
            values,
            keys,
            forms,
        } = self;
        Ok(Lists {
            values: pick(alloc, marks, values)?,
            keys: pick(alloc, marks, keys)?,
            forms: pick(alloc, marks, forms)?,
        })
    }

    /// The first of them, up to a place, and those from there on.
    pub fn parted(self, place: usize) -> Result<(Lists, Lists), AllocError>
        ensures values { IfOk result (λ s. self.values.items ≡ s.0.values.items ++ s.1.values.items) }
        ensures keys { IfOk result (λ s. self.keys.items ≡ s.0.keys.items ++ s.1.keys.items) }
        ensures forms { IfOk result (λ s. self.forms.items ≡ s.0.forms.items ++ s.1.forms.items) }
        ensures first { IfOk result (λ s. s.0.values.items ≡ take place self.values.items) }
        ensures texts { HaveTexts (as_part self) → IfOk result (λ s. HaveTexts (as_part s.0) × HaveTexts (as_part s.1)) }
    {
        let Lists {
            mut values,
            mut keys,
            mut forms,
        } = self;
        let more = cut(&mut values, place)?;
        let more_keys = cut(&mut keys, place)?;
        let more_forms = cut(&mut forms, place)?;
        Ok((
            Lists {
                values,
                keys,
                forms,
            },
            Lists {
                values: more,
                keys: more_keys,
                forms: more_forms,
            },
        ))
    }

    /// Whether a value is compared by these octets.
    pub fn has(&self, by_keys: bool, octets: &[u8]) -> bool
        ensures { result ≡ list_any (bytes_eq octets.now) (octets_in by_keys (as_part self.now)) }
    {
        if by_keys {
            is_key_among(&self.keys, octets)
        } else {
            is_value_among(&self.values, octets)
        }
    }

    /// Gives back the room that they don't fill.
    pub fn shrink(&mut self)
        ensures values { self.new.values.items ≡ self.old.values.items }
        ensures keys { self.new.keys.items ≡ self.old.keys.items }
        ensures forms { self.new.forms.items ≡ self.old.forms.items }
    {
        self.values.shrink_to_fit();
        self.keys.shrink_to_fit();
        self.forms.shrink_to_fit();
    }

    /// Them as they are read.
    pub fn as_part(&self) -> Part<'_>
        ensures values { result.values.now ≡ self.now.values.items }
        ensures keys { result.keys.now ≡ self.now.keys.items }
        ensures forms { result.forms.now ≡ self.now.forms.items }
    {
        Part {
            values: &self.values,
            keys: &self.keys,
            forms: &self.forms,
        }
    }

    /// A copy.
    pub fn copy(&self, alloc: Global) -> Result<Lists, AllocError>
        ensures values { IfOk result (λ l. l.values.items ≡ self.now.values.items) }
        ensures keys { IfOk result (λ l. l.keys.items ≡ self.now.keys.items) }
        ensures forms { IfOk result (λ l. l.forms.items ≡ self.now.forms.items) }
    {
        Ok(Lists {
            values: share_values(alloc, &self.values)?,
            keys: copy_keys(alloc, &self.keys)?,
            forms: copy_forms(alloc, &self.forms)?,
        })
    }
}

/// Whether one of the keys has these octets.
fn is_key_among(keys: &[Key], octets: &[u8]) -> bool
    ensures { result ≡ list_any (bytes_eq octets.now) keys.now }
{
    keys.iter().any(|key| octets == key.as_octets())
}

/// Whether one of the values has these octets.
pub fn is_value_among(values: &[Octets], octets: &[u8]) -> bool
    ensures { result ≡ list_any (bytes_eq octets.now) values.now }
{
    values.iter().any(|value| octets == value.as_slice())
}

/// Takes the items from a place on out of a list.
fn cut<T: Drop>(items: &mut Vec<T>, place: usize) -> Result<Vec<T>, AllocError>
    ensures first { OnOk result (items.new.items ≡ take place items.old.items) }
    ensures last { IfOk result (λ v. v.items ≡ drop place items.old.items) }
{
    let place = if place < items.len() {
        place
    } else {
        items.len()
    };
    items.split_off(place)
}

/// The items that are marked.
fn pick<T: Drop>(alloc: Global, marks: &[bool], items: Vec<T>) -> Result<Vec<T>, AllocError>
    ensures { IfOk result (λ v. v.items ≡ picked_by marks.now items.items) }
{
    let mut picked = Vec::new(alloc);
    let mut rest = marks;
    for item in items {
        match rest.split_first() {
            Some((mark, behind)) => {
                if *mark {
                    picked.push(item)?;
                }
                rest = behind;
            }
            None => return Ok(picked),
        }
    }
    Ok(picked)
}

/// Second owners of values.
fn share_values(alloc: Global, values: &[Octets]) -> Result<Vec<Octets>, AllocError>
    ensures { IfOk result (λ r. r.items ≡ values.now) }
{
    let mut copy = Vec::with_capacity(alloc, values.len())?;
    for value in values {
        copy.push(value.share()?)?;
    }
    Ok(copy)
}

/// A copy of a list of keys.
fn copy_keys(alloc: Global, keys: &[Key]) -> Result<Vec<Key>, AllocError>
    ensures { IfOk result (λ r. r.items ≡ keys.now) }
{
    let mut copy = Vec::with_capacity(alloc, keys.len())?;
    for key in keys {
        copy.push(key.copy(alloc)?)?;
    }
    Ok(copy)
}

/// A copy of a list of texts.
fn copy_forms(alloc: Global, forms: &[Form]) -> Result<Vec<Form>, AllocError>
    ensures { IfOk result (λ r. r.items ≡ forms.now) }
{
    let mut copy = Vec::with_capacity(alloc, forms.len())?;
    for form in forms {
        copy.push(form.copy(alloc)?)?;
    }
    Ok(copy)
}
