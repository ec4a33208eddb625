// Puts together the indexes of each type, of all lines.

ghost use Rattle.std.specs.Prelude.{◌≡◌, ◌<◌, ◌||◌, ℕ, cond, length, nat_eq, IfOk, OnOk, OnErr};
ghost use Rattle.index_choice.specs.Choice.{kinds_of};
ghost use Rattle.index_choice.specs.Texts.{chosen};
ghost use Rattle.index_choice.specs.private.Texts.{joined as joined_kinds, one_more};

use crate::kinds::Kinds;
use crate::line::{IndexLine, Named};
use dir_entry::TypeId;
use std::alloc::{AllocError, Global};

/// The kinds of both.
fn joined(a: Kinds, b: Kinds) -> Kinds
    ensures { result ≡ joined_kinds a b }
{
    Kinds {
        presence: a.presence || b.presence,
        equality: a.equality || b.equality,
        ordering: a.ordering || b.ordering,
        substrings: a.substrings || b.substrings,
    }
}

/// Makes room for a type's kinds; types without kinds have none. Whatever comes, each type has the kinds that it had.
fn reach(kinds: &mut Vec<Kinds>, number: usize) -> Result<(), AllocError>
    ensures reached { OnOk result (number < length kinds.new.items) }
    ensures same { (t : ℕ) → kinds_of kinds.new.items t ≡ kinds_of kinds.old.items t }
{
    while kinds.len() <= number {
        kinds.push(Kinds {
            presence: false,
            equality: false,
            ordering: false,
            substrings: false,
        })?;
    }
    Ok(())
}

/// Gives a type more kinds. An `Err` leaves each type the kinds that it had.
fn add_kinds(kinds: &mut Vec<Kinds>, type_id: TypeId, more: Kinds) -> Result<(), AllocError>
    ensures ok { OnOk result ((t : ℕ) → kinds_of kinds.new.items t ≡ cond (nat_eq type_id t)
        (joined_kinds (kinds_of kinds.old.items t) more) (kinds_of kinds.old.items t)) }
    ensures err { OnErr result ((t : ℕ) → kinds_of kinds.new.items t ≡ kinds_of kinds.old.items t) }
{
    let number = type_id.number();
    reach(kinds, number)?;
    let now = kinds[number];
    kinds[number] = joined(now, more);
    Ok(())
}

/// Gives the type of a line the kinds that it asks for. An `Err` leaves each type the kinds that it had.
fn add_line(kinds: &mut Vec<Kinds>, line: &IndexLine) -> Result<(), AllocError>
    ensures ok { OnOk result ((t : ℕ) → kinds_of kinds.new.items t ≡ one_more line.now t (kinds_of kinds.old.items t)) }
    ensures err { OnErr result ((t : ℕ) → kinds_of kinds.new.items t ≡ kinds_of kinds.old.items t) }
{
    match line.named {
        Named::Known(type_id) => add_kinds(kinds, type_id, line.kinds),
        Named::Unknown => Ok(()),
    }
}

/// The kinds of each type by its number.
pub fn kinds_of_lines(alloc: Global, lines: &[IndexLine]) -> Result<Vec<Kinds>, AllocError>
    ensures { IfOk result (λ v. (t : ℕ) → kinds_of v.items t ≡ chosen lines.now t) }
{
    let mut kinds = Vec::new(alloc);
    for line in lines {
        add_line(&mut kinds, line)?;
    }
    Ok(kinds)
}
