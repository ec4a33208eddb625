// A tree's maps, and how they change: what other owners have too is copied, the rest changes in place where an entry is
// new or has other attributes. Takes numbers, places and attributes.

ghost use Rattle.std.specs.Prelude.{◌≡◌, ◌∷◌, [], ℕ, IfOk, Some, None, true, nat_eq};
ghost use Rattle.std.specs.Option.{option_map_or};
ghost use Rattle.std.specs.Ordering.{nat_cmp};
ghost use Rattle.std.specs.BTreeMap.{insert_entry};
ghost use Rattle.dir_entry.specs.shared_map.Entries.{Rises};
ghost use Rattle.dir_entry.specs.ldap_dn.Names.{rdns};
ghost use Rattle.dir_tree.specs.Directory.{replaced};
ghost use Rattle.dir_tree.specs.Superiors.{place_at};
ghost use Rattle.dir_tree.specs.private.Superiors.{step_at, below_at, above_in, IsHung, IsListed};
ghost use Rattle.dir_tree.specs.Kept.{shown};
ghost use Rattle.dir_tree.specs.private.Kept.{IsTree, IsPlaced, IsRemoved, root_but};
ghost use Rattle.dir_tree.specs.private.Changes.{IsAfter, IsJoined, IsParted, IsLinked, IsUnlinked, over_any, place_of};

use crate::levels::{
    is_within, with_child, with_number, with_within, without_below, without_child, without_within,
};
use crate::place::{Entries, Levels, Place, Standing};
use crate::reach::Reach;
use crate::shared::SharedEntry;
use crate::shared_names::{SharedName, SharedRdn};
use crate::suffix::Suffix;
use dir_entry::{Name, NumberSet, Shared};
use std::alloc::{AllocError, Global};

/// What a tree is made of. A second owner of all of it is a few second owners, whatever the size.
pub struct Roots {
    /// The name that the root is to have.
    pub suffix: Suffix,
    /// The number of the root's entry.
    pub root: Option<u64>,
    /// A way up from an entry has at most so many entries.
    pub reach: Reach,
    pub entries: Entries,
    pub levels: Levels,
    /// No number: what stands right under an entry that nothing stands below.
    pub none: NumberSet,
}

// Not derived: see "What the gate takes" in docs/ARCHITECTURE.md.
impl Drop for Roots {
    fn drop(self) {
        let Roots {
            suffix: _,
            root: _,
            reach: _,
            entries: _,
            levels: _,
            none: _,
        } = self;
    }
}

/// The number right above a place.
fn above_place(place: &Place) -> Option<u64>
    ensures { result ≡ above_in (Some place.now) }
{
    match place {
        Place::Root(_) => None,
        Place::Under(above, _) => Some(*above),
    }
}

/// The number right above a number.
pub fn above_of(entries: &Entries, number: u64) -> Option<u64>
    ensures { result ≡ above_in (place_at entries.now number) }
{
    match entries.get(&number) {
        Some(standing) => above_place(&standing.place),
        None => None,
    }
}

/// The place of a name: the root's, or right under a number by its last relative name.
pub fn place_in(alloc: Global, above: Option<u64>, name: Name) -> Result<Place, AllocError>
    ensures { IfOk result (λ p. p ≡ place_of above name) }
{
    match above {
        None => Ok(Place::Root(SharedName::new(alloc, name)?)),
        Some(above) => place_below(alloc, above, name),
    }
}

/// The same below a number.
fn place_below(alloc: Global, above: u64, name: Name) -> Result<Place, AllocError>
    ensures { IfOk result (λ p. p ≡ place_of (Some above) name) }
{
    let mut rdns = name.into_rdns();
    match rdns.pop() {
        Some(rdn) => Ok(Place::Under(above, SharedRdn::new(alloc, rdn)?)),
        None => Ok(Place::Root(SharedName::new(alloc, Name::from_rdns(rdns))?)),
    }
}

/// The number of the root's entry, unless it is this one.
fn root_but(root: Option<u64>, number: u64) -> Option<u64>
    ensures { result ≡ root_but number root }
{
    match root {
        Some(root) => { if root == number { None } else { Some(root) } }
        None => None,
    }
}

/// The number of the root's entry, once there is a new entry: its own, where it has nothing above it.
pub fn root_after(root: Option<u64>, above: Option<u64>, number: u64) -> Option<u64>
    ensures { result ≡ option_map_or (λ a. root) above (Some number) }
{
    match above {
        Some(_) => root,
        None => Some(number),
    }
}

/// The steps down to a number by its place, put in.
fn linked(alloc: Global, levels: Levels, number: u64, place: &Place) -> Result<Levels, AllocError>
    ensures { IfOk result (λ m. IsLinked number (Some place.now)
        (step_at levels) (step_at m) (below_at levels) (below_at m)) }
{
    match place {
        Place::Root(_) => Ok(levels),
        Place::Under(above, rdn) => with_child(alloc, levels, *above, rdn.share()?, number),
    }
}

/// The steps down to a number by its place, taken out.
fn unlinked_at(
    alloc: Global,
    levels: &Levels,
    number: u64,
    place: &Place,
) -> Result<Levels, AllocError>
    ensures { IfOk result (λ m. IsUnlinked number (Some place.now)
        (step_at levels.now) (step_at m) (below_at levels.now) (below_at m)) }
{
    match place {
        Place::Root(_) => levels.share(),
        Place::Under(above, rdn) => without_child(alloc, levels, *above, rdn.get(), number),
    }
}

/// The sets of a number and of those above it, with one more number.
fn joined_above(
    alloc: Global,
    levels: Levels,
    entries: &Entries,
    reach: Reach,
    from: Option<u64>,
    number: u64,
) -> Result<Levels, AllocError>
    ensures { IfOk result (λ m. IsJoined (λ x. over_any reach (place_at entries.now) x from) (below_at levels) None
        (number ∷ []) (below_at levels) (below_at m)) }
{
    let mut changed = levels;
    let mut at = from;
    for i in 0..reach.most() {
        match at {
            None => break,
            Some(above) => {
                changed = with_number(alloc, changed, above, number)?;
                at = above_of(entries, above);
            }
        }
    }
    Ok(changed)
}

impl Roots {
    /// The steps down to a number by the place that it has, taken out.
    fn unlinked(&self, alloc: Global, number: u64) -> Result<Levels, AllocError>
        ensures { IfOk result (λ m. IsUnlinked number (place_at self.now.entries number)
            (step_at self.now.levels) (step_at m) (below_at self.now.levels) (below_at m)) }
    {
        match self.entries.get(&number) {
            Some(standing) => unlinked_at(alloc, &self.levels, number, &standing.place),
            None => self.levels.share(),
        }
    }

    /// What stands at or below a number, which moves with it.
    fn moving(&self, number: u64) -> Result<NumberSet, AllocError>
        ensures { IfOk result (λ s. s ≡ (below_at self.now.levels number).within) }
    {
        match self.levels.get(&number) {
            Some(below) => below.within.share(),
            None => Ok(NumberSet::of_one(number)),
        }
    }

    /// The sets of one number, with more numbers; they stay where they hold another one already.
    fn joined_at(
        &self,
        alloc: Global,
        levels: Levels,
        at: u64,
        except: Option<u64>,
        numbers: &NumberSet,
    ) -> Result<Levels, AllocError>
        ensures { IfOk result (λ m. IsJoined (λ x. nat_eq x at) (below_at self.now.levels) except
            numbers.now (below_at levels) (below_at m)) }
    {
        if is_within(&self.levels, at, except) {
            return Ok(levels);
        }
        with_within(alloc, &levels, at, numbers)
    }

    /// The sets of a number and of those above it, with more numbers; those that hold another number already stay.
    fn joined_up(
        &self,
        alloc: Global,
        levels: Levels,
        from: Option<u64>,
        except: Option<u64>,
        numbers: &NumberSet,
    ) -> Result<Levels, AllocError>
        ensures { IfOk result (λ m. IsJoined (λ x. over_any self.now.reach (place_at self.now.entries) x from)
            (below_at self.now.levels) except numbers.now (below_at levels) (below_at m)) }
    {
        let mut changed = levels;
        let mut at = from;
        for i in 0..self.reach.most() {
            match at {
                None => break,
                Some(number) => {
                    changed = self.joined_at(alloc, changed, number, except, numbers)?;
                    at = above_of(&self.entries, number);
                }
            }
        }
        Ok(changed)
    }

    /// The sets of one number, with fewer numbers; they stay where they hold another one.
    fn parted_at(
        &self,
        alloc: Global,
        levels: Levels,
        at: u64,
        except: Option<u64>,
        numbers: &NumberSet,
    ) -> Result<Levels, AllocError>
        ensures { IfOk result (λ m. IsParted (λ x. nat_eq x at) (below_at self.now.levels) except
            numbers.now (below_at levels) (below_at m)) }
    {
        if is_within(&self.levels, at, except) {
            return Ok(levels);
        }
        without_within(alloc, &levels, at, numbers)
    }

    /// The sets of a number and of those above it, with fewer numbers; those that hold another number stay.
    fn parted_up(
        &self,
        alloc: Global,
        levels: Levels,
        from: Option<u64>,
        except: Option<u64>,
        numbers: &NumberSet,
    ) -> Result<Levels, AllocError>
        ensures { IfOk result (λ m. IsParted (λ x. over_any self.now.reach (place_at self.now.entries) x from)
            (below_at self.now.levels) except numbers.now (below_at levels) (below_at m)) }
    {
        let mut changed = levels;
        let mut at = from;
        for i in 0..self.reach.most() {
            match at {
                None => break,
                Some(number) => {
                    changed = self.parted_at(alloc, changed, number, except, numbers)?;
                    at = above_of(&self.entries, number);
                }
            }
        }
        Ok(changed)
    }

    /// What stands below numbers, once a number has another place: one look-up for each entry above
    /// the old place and above the new one; and for those above one of them alone, a change of
    /// their sets for each entry that moves.
    fn moved(&self, alloc: Global, number: u64, place: &Place) -> Result<Levels, AllocError>
        requires { IsListed self.now.reach (place_at self.now.entries) (below_at self.now.levels) }
        ensures { IfOk result (λ m. IsAfter number (place_at self.now.entries number) (Some place.now)
            self.now.reach (place_at self.now.entries)
            (step_at self.now.levels) (step_at m) (below_at self.now.levels) (below_at m)) }
    {
        let old = above_of(&self.entries, number);
        let new = above_place(place);
        let moving = self.moving(number)?;
        let levels = self.unlinked(alloc, number)?;
        let levels = linked(alloc, levels, number, place)?;
        let levels = self.parted_up(alloc, levels, old, new, &moving)?;
        self.joined_up(alloc, levels, new, old, &moving)
    }

    /// What stands below numbers, once a number that nothing stands below is gone.
    fn left(&self, alloc: Global, number: u64) -> Result<Levels, AllocError>
        requires { IsListed self.now.reach (place_at self.now.entries) (below_at self.now.levels) }
        ensures { IfOk result (λ m. IsAfter number (place_at self.now.entries number) None
            self.now.reach (place_at self.now.entries)
            (step_at self.now.levels) (step_at m) (below_at self.now.levels) (below_at m)) }
    {
        let old = above_of(&self.entries, number);
        let moving = self.moving(number)?;
        let levels = self.unlinked(alloc, number)?;
        self.parted_up(alloc, levels, old, None, &moving)
    }

    /// Whether nothing is kept of a number.
    fn is_new(&self, number: u64) -> bool
        ensures absent { result ≡ true → place_at self.now.entries number ≡ None }
        ensures alone { result ≡ true → (below_at self.now.levels number).within ≡ number ∷ [] }
    {
        match self.entries.get(&number) {
            Some(_) => false,
            None => match self.levels.get(&number) {
                Some(_) => false,
                None => true,
            },
        }
    }

    /// The maps with an entry at a place, where it came to with all that stands below it. What the maps alone own of
    /// the entries, and where the entry is new all that they alone own, is changed where it stands.
    pub fn placed(
        self,
        alloc: Global,
        number: u64,
        standing: Standing,
        root: Option<u64>,
        reach: Reach,
    ) -> Result<Roots, AllocError>
        requires { IsListed self.reach (place_at self.entries) (below_at self.levels) }
        ensures { IfOk result (λ r. IsPlaced self number standing root reach r) }
    {
        if self.is_new(number) {
            return self.placed_new(alloc, number, standing, root, reach);
        }
        let levels = self.moved(alloc, number, &standing.place)?;
        let Roots {
            suffix,
            root: _,
            reach: _,
            entries,
            levels: _,
            none: _,
        } = self;
        let entries = entries.insert(alloc, number, standing)?;
        entries.rises();
        Ok(Roots {
            suffix,
            root,
            reach,
            entries,
            levels,
            none: NumberSet::new(),
        })
    }

    /// The maps with a new entry at a place. What they alone own is changed where it stands.
    fn placed_new(
        self,
        alloc: Global,
        number: u64,
        standing: Standing,
        root: Option<u64>,
        reach: Reach,
    ) -> Result<Roots, AllocError>
        requires listed { IsListed self.reach (place_at self.entries) (below_at self.levels) }
        requires absent { place_at self.entries number ≡ None }
        requires alone { (below_at self.levels number).within ≡ number ∷ [] }
        ensures { IfOk result (λ r. IsPlaced self number standing root reach r) }
    {
        let Roots {
            suffix,
            root: _,
            reach: most,
            entries,
            levels,
            none: _,
        } = self;
        let above = above_place(&standing.place);
        let levels = linked(alloc, levels, number, &standing.place)?;
        let levels = joined_above(alloc, levels, &entries, most, above, number)?;
        let entries = entries.insert(alloc, number, standing)?;
        entries.rises();
        Ok(Roots {
            suffix,
            root,
            reach,
            entries,
            levels,
            none: NumberSet::new(),
        })
    }

    /// What stands below numbers without a number that nothing stands below; nothing is kept of it.
    fn levels_without(&self, alloc: Global, number: u64) -> Result<Levels, AllocError>
        requires hung { IsHung (rdns self.now.suffix) self.now.root self.now.reach
            (place_at self.now.entries) (step_at self.now.levels) }
        requires listed { IsListed self.now.reach (place_at self.now.entries) (below_at self.now.levels) }
        requires leaf { (j : ℕ) → above_in (place_at self.now.entries j) ≡ Some number → ⊥ }
        ensures { IfOk result (λ m. IsAfter number (place_at self.now.entries number) None
            self.now.reach (place_at self.now.entries)
            (step_at self.now.levels) (step_at m) (below_at self.now.levels) (below_at m)) }
    {
        let levels = self.left(alloc, number)?;
        without_below(alloc, &levels, number)
    }

    /// The maps without the entry of a number that nothing stands below.
    pub fn removed(&self, alloc: Global, number: u64) -> Result<Roots, AllocError>
        requires hung { IsHung (rdns self.now.suffix) self.now.root self.now.reach
            (place_at self.now.entries) (step_at self.now.levels) }
        requires listed { IsListed self.now.reach (place_at self.now.entries) (below_at self.now.levels) }
        requires leaf { (j : ℕ) → above_in (place_at self.now.entries j) ≡ Some number → ⊥ }
        ensures { IfOk result (λ r. IsRemoved self.now number r) }
    {
        let levels = self.levels_without(alloc, number)?;
        let entries = self.entries.without(alloc, &number)?;
        entries.rises();
        Ok(Roots {
            suffix: self.suffix.share(alloc)?,
            root: root_but(self.root, number),
            reach: self.reach,
            entries,
            levels,
            none: NumberSet::new(),
        })
    }

    /// A second owner of all.
    pub fn share(&self, alloc: Global) -> Result<Roots, AllocError>
        ensures { IfOk result (λ r. r ≡ self.now) }
    {
        Ok(Roots {
            suffix: self.suffix.share(alloc)?,
            root: self.root,
            reach: self.reach,
            entries: self.entries.share()?,
            levels: self.levels.share()?,
            none: self.none.share()?,
        })
    }

    /// The maps with other attributes of the entry of a number. What they alone own of the entries is changed where it
    /// stands.
    pub fn replaced(
        self,
        alloc: Global,
        number: u64,
        entry: SharedEntry,
    ) -> Result<Roots, AllocError>
        requires { IsTree self }
        ensures tree { IfOk result (λ r. IsTree r) }
        ensures suffix { IfOk result (λ r. r.suffix ≡ self.suffix) }
        ensures shown { IfOk result (λ r. shown r ≡ replaced number entry (shown self)) }
    {
        match self.entries.get(&number) {
            Some(standing) => {
                let standing = Standing {
                    place: standing.place.share()?,
                    own: standing.own.share()?,
                    entry,
                };
                let roots = self.with_standing(alloc, number, standing)?;
                Ok(roots)
            }
            None => Ok(self),
        }
    }

    /// The maps with another entry of a number at the same place.
    fn with_standing(
        self,
        alloc: Global,
        number: u64,
        standing: Standing,
    ) -> Result<Roots, AllocError>
        ensures is { IfOk result (λ r. r ≡
            record self { entries = insert_entry nat_cmp self.entries number standing }) }
        ensures rises { IfOk result (λ r. Rises nat_cmp r.entries) }
    {
        let Roots {
            suffix,
            root,
            reach,
            entries,
            levels,
            none,
        } = self;
        let entries = entries.insert(alloc, number, standing)?;
        entries.rises();
        Ok(Roots {
            suffix,
            root,
            reach,
            entries,
            levels,
            none,
        })
    }
}
