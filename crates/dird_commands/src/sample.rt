//! The built-in sample: six entries, for trying the program out. A directory gets them as adds.
ghost use Rattle.std.specs.Prelude.{◌≡◌, ◌+◌, map, IfOk, OnOk};
ghost use Rattle.local_directory.specs.ldap_msg.View.{add_view, attribute_view};
ghost use Rattle.local_directory.specs.ldap_op.Values.{add as add_op};
ghost use Rattle.local_directory.specs.indexed_tree.Stored.{NumbersBelow};
ghost use Rattle.local_directory.specs.dir_store.Updates.{applied, directory_after};
ghost use Rattle.dird_commands.specs.Sample as sample;
ghost use Rattle.dird_commands.specs.Sample.{one_value, add_of};

use crate::fault::Fault;
use local_directory::{AddRequest, Attribute, Op, Store, Update};
use std::alloc::{AllocError, Global};

/// An attribute with one value.
fn attribute(alloc: Global, description: &str, value: &str) -> Result<Attribute, AllocError>
    ensures { IfOk result (λ a. attribute_view a ≡ one_value (description.now, value.now)) }
{
    let mut values = Vec::new(alloc);
    values.push(value.as_bytes().to_vec(alloc)?)?;
    let description = String::from_str(alloc, description)?;
    Ok(Attribute {
        description,
        values,
    })
}

/// Attributes with one value each.
fn attributes(alloc: Global, pairs: &[(&str, &str)]) -> Result<Vec<Attribute>, AllocError>
    ensures { IfOk result (λ v. map attribute_view v.items ≡ map one_value (map (λ p. (p.0.now, p.1.now)) pairs.now)) }
{
    let mut attributes = Vec::new(alloc);
    for (description, value) in pairs {
        attributes.push(attribute(alloc, description, value)?)?;
    }
    Ok(attributes)
}

/// The add of an entry whose attributes have one value each.
fn request(alloc: Global, name: &str, pairs: &[(&str, &str)]) -> Result<AddRequest, AllocError>
    ensures { IfOk result (λ r. add_view r ≡ add_of name.now (map (λ p. (p.0.now, p.1.now)) pairs.now)) }
{
    Ok(AddRequest {
        entry: String::from_str(alloc, name)?,
        attributes: attributes(alloc, pairs)?,
    })
}

/// The domain.
#[tactic(auto, unfolding(crate::specs::Sample::example))]
fn example(alloc: Global) -> Result<AddRequest, AllocError>
    ensures { IfOk result (λ r. add_view r ≡ sample.example) }
{
    let pairs = [("objectClass", "domain"), ("dc", "example")];
    request(alloc, "dc=example,dc=com", &pairs)
}

/// The unit of the items.
#[tactic(auto, unfolding(crate::specs::Sample::items_unit))]
fn items_unit(alloc: Global) -> Result<AddRequest, AllocError>
    ensures { IfOk result (λ r. add_view r ≡ sample.items_unit) }
{
    let pairs = [("objectClass", "organizationalUnit"), ("ou", "Items")];
    request(alloc, "ou=Items,dc=example,dc=com", &pairs)
}

/// The item Ana.
#[tactic(auto, unfolding(crate::specs::Sample::ana))]
fn ana(alloc: Global) -> Result<AddRequest, AllocError>
    ensures { IfOk result (λ r. add_view r ≡ sample.ana) }
{
    let pairs = [
        ("objectClass", "item"),
        ("cn", "Ana"),
        ("description", "first"),
        ("label", "abc"),
        ("rank", "9"),
    ];
    request(alloc, "cn=Ana,ou=Items,dc=example,dc=com", &pairs)
}

/// The item Anna.
#[tactic(auto, unfolding(crate::specs::Sample::anna))]
fn anna(alloc: Global) -> Result<AddRequest, AllocError>
    ensures { IfOk result (λ r. add_view r ≡ sample.anna) }
{
    let pairs = [
        ("objectClass", "item"),
        ("cn", "Anna"),
        ("label", "xyz"),
        ("rank", "10"),
    ];
    request(alloc, "cn=Anna,ou=Items,dc=example,dc=com", &pairs)
}

/// The item Anana.
#[tactic(auto, unfolding(crate::specs::Sample::anana))]
fn anana(alloc: Global) -> Result<AddRequest, AllocError>
    ensures { IfOk result (λ r. add_view r ≡ sample.anana) }
{
    let pairs = [
        ("objectClass", "item"),
        ("cn", "Anana"),
        ("ticket", "7"),
        ("rank", "-3"),
    ];
    request(alloc, "cn=Anana,ou=Items,dc=example,dc=com", &pairs)
}

/// The item An Na.
#[tactic(auto, unfolding(crate::specs::Sample::an_na))]
fn an_na(alloc: Global) -> Result<AddRequest, AllocError>
    ensures { IfOk result (λ r. add_view r ≡ sample.an_na) }
{
    let pairs = [
        ("objectClass", "item"),
        ("cn", "An Na"),
        ("rank", "1234567890123456789012345678901234567890"),
    ];
    request(alloc, "cn=An Na,ou=Items,dc=example,dc=com", &pairs)
}

/// Adds an entry under a number above all, as far as the schema lets it.
fn add(alloc: Global, store: &mut Store, number: u64, request: AddRequest) -> Result<(), Fault>
    requires above { NumbersBelow number store.old.directory.entries }
    ensures applied { OnOk result (store.new.directory ≡ applied store.old.directory number
        (add_op (add_view request))) }
    ensures indexes { store.new.indexes ≡ store.old.indexes }
    ensures below { OnOk result (NumbersBelow (number + 1) store.new.directory.entries) }
{
    let op = Op::new(alloc, Update::Add(request))?;
    let _reply = store.apply(alloc, number, &op)?;
    Ok(())
}

/// Adds what stands above the items, as operations 1 and 2.
fn add_upper(alloc: Global, store: &mut Store) -> Result<(), Fault>
    requires empty { NumbersBelow 1 store.old.directory.entries }
    ensures applied { OnOk result (store.new.directory ≡
        applied (applied store.old.directory 1 (add_op sample.example)) 2 (add_op sample.items_unit)) }
    ensures indexes { store.new.indexes ≡ store.old.indexes }
    ensures below { OnOk result (NumbersBelow 3 store.new.directory.entries) }
{
    add(alloc, store, 1, example(alloc)?)?;
    add(alloc, store, 2, items_unit(alloc)?)
}

/// Adds two items, as operations 3 and 4.
fn add_first_items(alloc: Global, store: &mut Store) -> Result<(), Fault>
    requires below { NumbersBelow 3 store.old.directory.entries }
    ensures applied { OnOk result (store.new.directory ≡ applied (applied store.old.directory 3 (add_op sample.ana)) 4
        (add_op sample.anna)) }
    ensures indexes { store.new.indexes ≡ store.old.indexes }
    ensures below { OnOk result (NumbersBelow 5 store.new.directory.entries) }
{
    add(alloc, store, 3, ana(alloc)?)?;
    add(alloc, store, 4, anna(alloc)?)
}

/// Adds the other two, as operations 5 and 6.
fn add_last_items(alloc: Global, store: &mut Store) -> Result<(), Fault>
    requires below { NumbersBelow 5 store.old.directory.entries }
    ensures applied { OnOk result (store.new.directory ≡ applied (applied store.old.directory 5 (add_op sample.anana))
        6 (add_op sample.an_na)) }
    ensures indexes { store.new.indexes ≡ store.old.indexes }
    ensures below { OnOk result (NumbersBelow 7 store.new.directory.entries) }
{
    add(alloc, store, 5, anana(alloc)?)?;
    add(alloc, store, 6, an_na(alloc)?)
}

/// Adds the sample's entries to a directory that has none, as operations 1 to 6.
pub fn add_sample(alloc: Global, store: &mut Store) -> Result<(), Fault>
    requires empty { NumbersBelow 1 store.old.directory.entries }
    ensures applied { OnOk result (store.new.directory ≡ directory_after store.old.directory 0 sample.sample) }
    ensures indexes { store.new.indexes ≡ store.old.indexes }
    ensures below { OnOk result (NumbersBelow 7 store.new.directory.entries) }
{
    add_upper(alloc, store)?;
    add_first_items(alloc, store)?;
    add_last_items(alloc, store)
}
