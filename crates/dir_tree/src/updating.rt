// Adds, deletes and renames: makes the maps of the directory that a change is to make.

ghost use Rattle.std.specs.Prelude.{◌≡◌, ◌++◌, ◌∷◌, [], IfOk, Some, true, false, is_some};
ghost use Rattle.std.specs.Option.{option_map};
ghost use Rattle.dir_entry.specs.ldap_dn.Names.{rdns};
ghost use Rattle.dir_tree.specs.Directory.{AllBelow, find, name_eq, begins, above, has_below, has_footing, moved, unnumbered};
ghost use Rattle.dir_tree.specs.Kept.{shown};
ghost use Rattle.dir_tree.specs.private.Kept.{IsTree};
ghost use Rattle.dir_tree.specs.Placed.{name_placed};

use crate::place::Standing;
use crate::roots::{Roots, place_in, root_after};
use crate::shared::SharedEntry;
use dir_entry::{Name, Rdn};
use std::alloc::{AllocError, Global};

impl Roots {
    /// The maps with a new entry, under a number above all.
    pub fn added(
        self,
        alloc: Global,
        number: u64,
        name: Name,
        entry: SharedEntry,
    ) -> Result<Roots, AllocError>
        requires tree { IsTree self }
        requires above { AllBelow number (shown self) }
        requires absent { is_some (find (rdns name) (shown self)) ≡ false }
        requires footing { has_footing (rdns self.suffix) (rdns name) (shown self) ≡ true }
        ensures tree { IfOk result (λ r. IsTree r) }
        ensures suffix { IfOk result (λ r. r.suffix ≡ self.suffix) }
        ensures shown { IfOk result (λ r. shown r ≡ shown self ++ record {
          number = number;
          name = name_placed (rdns self.suffix) name (shown self);
          entry = entry;
        } ∷ []) }
    {
        let above = self.superior(name.rdns());
        let root = root_after(self.root, above, number);
        let reach = self.reach.longer(1)?;
        let place = place_in(alloc, above, name)?;
        let standing = Standing::new(number, place, entry);
        self.placed(alloc, number, standing, root, reach)
    }

    /// The maps without the entry of a name that nothing stands below.
    pub fn deleted(&self, alloc: Global, name: &[Rdn], number: u64) -> Result<Roots, AllocError>
        requires tree { IsTree self.now }
        requires here { option_map (λ e. e.number) (find (rdns name.now) (shown self.now)) ≡ Some number }
        requires leaf { has_below (rdns name.now) (shown self.now) ≡ false }
        ensures tree { IfOk result (λ r. IsTree r) }
        ensures suffix { IfOk result (λ r. r.suffix ≡ self.now.suffix) }
        ensures shown { IfOk result (λ r. shown r ≡ unnumbered number (shown self.now)) }
    {
        self.removed(alloc, number)
    }

    /// The maps with another name and other attributes of an entry, and with all that stands below it below that name.
    pub fn renamed(
        self,
        alloc: Global,
        name: &[Rdn],
        number: u64,
        new_name: Name,
        new_entry: SharedEntry,
    ) -> Result<Roots, AllocError>
        requires tree { IsTree self }
        requires here { option_map (λ e. e.number) (find (rdns name.now) (shown self)) ≡ Some number }
        requires root { name_eq (rdns name.now) (rdns self.suffix) ≡ false }
        requires parent { is_some (find (above (rdns new_name)) (shown self)) ≡ true }
        requires apart { begins (rdns name.now) (above (rdns new_name)) ≡ false }
        requires free { is_some (find (rdns new_name) (shown self)) ≡ true
            → name_eq (rdns name.now) (rdns new_name) ≡ true }
        ensures tree { IfOk result (λ r. IsTree r) }
        ensures suffix { IfOk result (λ r. r.suffix ≡ self.suffix) }
        ensures shown { IfOk result (λ r. shown r ≡ moved (rdns name.now)
            (name_placed (rdns self.suffix) new_name (shown self)) new_entry (shown self)) }
    {
        let above = self.number_over(new_name.rdns());
        let reach = self.reach.longer(1)?.longer(new_name.len() as u64)?;
        let place = place_in(alloc, above, new_name)?;
        let standing = Standing::new(number, place, new_entry);
        let root = self.root;
        self.placed(alloc, number, standing, root, reach)
    }
}
