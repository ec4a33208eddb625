//! The numbers of types or of classes by name and by object identifier.

ghost use Rattle.std.specs.Prelude.{◌≡◌, ℕ, [], List, map, IfOk, OnOk, OnErr};
ghost use Rattle.std.specs.Char.{to_ascii_lowercase};
ghost use Rattle.std.specs.List.{list_any, position_from};
ghost use Rattle.std.specs.Str.{bytes_eq};
ghost use Rattle.std.specs.String.{string_bytes};
ghost use Rattle.ldap_schema.specs.private.NameOrder.{number_at, kept_or, find_in, has_name, lower as lower_one};
ghost use Rattle.ldap_schema.specs.Schema.{is_called};

use crate::attribute_type::AttributeType;
use crate::class::ObjectClass;
use crate::name_table::NameTable;
use ldap_words::lower_case;
use std::alloc::{AllocError, Global};
use std::marker::Model;

/// Numbers by name and by object identifier.
#[derive(Drop)]
pub struct NameIndex {
    /// Names in lower case.
    names: NameTable,
    oids: NameTable,
}

impl Model for NameIndex {
    ghost use Rattle.ldap_schema.specs.private.NameOrder.{IndexModel};

    ghost Value = { IndexModel };

    ghost view = { λ i. record { names = i.names; oids = i.oids } };
}

/// Adds a name in lower case, unless it is there.
fn add_name(
    alloc: Global,
    table: &mut NameTable,
    name: &[u8],
    number: usize,
) -> Result<(), AllocError>
    ensures ok { OnOk result ((q : List ℕ) → number_at table.new q ≡ kept_or (number_at table.old q)
        (bytes_eq q (map to_ascii_lowercase name.now)) number) }
    ensures err { OnErr result (table.new ≡ table.old) }
{
    table.add(lower_case(alloc, name)?, number)
}

/// Adds the names in lower case that aren't there.
fn add_names(
    alloc: Global,
    table: &mut NameTable,
    names: &[String],
    number: usize,
) -> Result<(), AllocError>
    ensures { OnOk result ((q : List ℕ) → number_at table.new q ≡ kept_or (number_at table.old q)
        (has_name q (map string_bytes names.now)) number) }
{
    for name in names {
        add_name(alloc, table, name.as_bytes(), number)?;
    }
    Ok(())
}

/// The lower one of the numbers that are there.
fn lower(first: Option<usize>, second: Option<usize>) -> Option<usize>
    ensures { result ≡ lower_one first second }
{
    match first {
        None => second,
        Some(number) => match second {
            None => Some(number),
            Some(other) => Some(if other < number { other } else { number }),
        },
    }
}

impl NameIndex {
    /// An index of nothing.
    fn new(alloc: Global) -> NameIndex
        ensures { result ≡ record { names = []; oids = [] } }
    {
        NameIndex {
            names: NameTable::new(alloc),
            oids: NameTable::new(alloc),
        }
    }

    /// Adds what is called so.
    fn add(
        &mut self,
        alloc: Global,
        oid: &str,
        names: &[String],
        number: usize,
    ) -> Result<(), AllocError>
        ensures names { OnOk result ((q : List ℕ) → number_at self.new.names q ≡ kept_or (number_at self.old.names q)
            (has_name q (map string_bytes names.now)) number) }
        ensures oids { OnOk result ((q : List ℕ) → number_at self.new.oids q ≡ kept_or (number_at self.old.oids q)
            (bytes_eq q oid.now) number) }
    {
        add_names(alloc, &mut self.names, names, number)?;
        self.oids
            .add(Vec::from_slice(alloc, oid.as_bytes())?, number)
    }

    /// The index of types.
    pub fn of_types(alloc: Global, types: &[AttributeType]) -> Result<NameIndex, AllocError>
        ensures { IfOk result (λ i. (d : List ℕ) → find_in i d ≡ position_from (λ t. is_called d t.oid t.names) 0
            types.now) }
    {
        let mut index = NameIndex::new(alloc);
        for (number, one) in types.iter().enumerate() {
            index.add(alloc, one.oid(), one.names(), number)?;
        }
        Ok(index)
    }

    /// The index of classes.
    pub fn of_classes(alloc: Global, classes: &[ObjectClass]) -> Result<NameIndex, AllocError>
        ensures { IfOk result (λ i. (d : List ℕ) → find_in i d ≡ position_from (λ c. is_called d c.oid c.names) 0
            classes.now) }
    {
        let mut index = NameIndex::new(alloc);
        for (number, one) in classes.iter().enumerate() {
            index.add(alloc, one.oid(), one.names(), number)?;
        }
        Ok(index)
    }

    /// The number of what the description calls, by name without regard to case or by object identifier.
    pub fn find(&self, name: &[u8]) -> Option<usize>
        ensures { result ≡ find_in self.now name.now }
    {
        lower(self.names.find_folded(name), self.oids.find(name))
    }
}
