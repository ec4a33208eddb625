//! The values of a filter on the entries of a tree, each asked for by its number.
use crate::names_at::NameAt;
use indexed_tree::{Truth, Visit};
use ldap_eval::{BoundFilter, value};
use search_plans::Values;

/// The values of a bound filter on the entries of a tree.
pub struct Evaluated<'a> {
    pub visit: Visit<'a>,
    pub bound: &'a BoundFilter,
    /// How many values were asked for.
    pub looks: u64,
}

// Not derived: see "What the gate takes" in docs/ARCHITECTURE.md.
impl<'a> Drop for Evaluated<'a> {
    fn drop(self) {
        let Evaluated {
            visit: _,
            bound: _,
            looks: _,
        } = self;
    }
}

impl Values for Evaluated<'_> {
    ghost use Rattle.dir_search.specs.Looks.{value_in};

    ghost value_at = { λ v n. value_in v.bound.now v.visit.entries n };

    ghost looks = { λ v. v.looks };

    fn expect(&mut self, numbers: &[u64]) {
        self.visit.expect(numbers);
    }

    #[tactic(auto, using(crate::proofs::NamesAt::value_some, crate::proofs::NamesAt::value_none))]
    fn value(&mut self, number: u64) -> Truth {
        self.looks += 1;
        match self.visit.entry(number) {
            Some(entry) => {
                let name = NameAt {
                    tree: self.visit.tree(),
                    number,
                };
                value(self.bound, entry, &name)
            }
            None => Truth::Undefined,
        }
    }
}
