// The parts of an attribute's values.

ghost use Rattle.std.specs.Prelude.{◌≡◌, ◌+◌, ◌++◌, [], length, map, IfSome, MatchOption};
ghost use Rattle.ldap_match.specs.ldap_syntax.Forms.{form_of};
ghost use Rattle.value_parts.specs.Parts.{whole};

use crate::kept_part::KeptPart;
use crate::part::Part;
use crate::part_list::PartList;
use std::marker::Model;

/// The parts of an attribute's values, in order. Contracts see the values, keys and texts of all of them.
pub struct Parts<'a> {
    first: Option<Part<'a>>,
    rest: &'a [KeptPart],
    /// How many values there are.
    len: usize,
}

// Not derived: see "What the gate takes" in docs/ARCHITECTURE.md.
impl<'a> Drop for Parts<'a> {
    fn drop(self) {
        let Parts {
            first: _,
            rest: _,
            len: _,
        } = self;
    }
}

impl<'a> Model for Parts<'a> {
    ghost use Rattle.value_parts.specs.Parts.{PartsModel};
    ghost use Rattle.value_parts.specs.Walked.{parts_in};
    ghost use Rattle.value_parts.specs.private.Parts.{AreParts};

    ghost Value = { PartsModel };

    ghost view = { λ p. parts_in p.first p.rest.now };

    ghost invariant = { λ p. AreParts p.first p.rest.now p.len };
}

impl<'a> Parts<'a> {
    /// These values alone.
    pub fn of(part: Part<'a>) -> Parts<'a>
        requires { part.forms.now ≡ map form_of part.values.now }
        ensures values { result.values ≡ part.entry.values.now }
        ensures keys { result.keys ≡ part.entry.keys.now }
        ensures forms { result.forms ≡ part.entry.forms.now }
    {
        Parts {
            first: Some(part),
            rest: &[],
            len: part.values.len(),
        }
    }

    /// The parts of a list.
    pub fn of_list(list: &'a PartList) -> Parts<'a>
        ensures values { result.values ≡ (whole list.now).values }
        ensures keys { result.keys ≡ (whole list.now).keys }
        ensures forms { result.forms ≡ (whole list.now).forms }
    {
        Parts {
            first: None,
            rest: list.parts(),
            len: list.len(),
        }
    }

    /// The first part and the others; none, where no value is left.
    pub fn split_first(&self) -> Option<(Part<'a>, Parts<'a>)>
        ensures values { MatchOption result (self.now.values ≡ [])
            (λ s. self.now.values ≡ s.0.values.now ++ s.1.values) }
        ensures keys { MatchOption result (self.now.keys ≡ []) (λ s. self.now.keys ≡ s.0.keys.now ++ s.1.keys) }
        ensures forms { MatchOption result (self.now.forms ≡ []) (λ s. self.now.forms ≡ s.0.forms.now ++ s.1.forms) }

        // The texts of a part are those of its values.
        ensures texts { IfSome result (λ s. s.0.forms.now ≡ map form_of s.0.values.now) }

        // How many parts are left, as a measure of loops.
        ensures count { MatchOption result (self.now.count ≡ 0) (λ s. self.now.count ≡ 1 + s.1.count) }
    {
        let rest = self.rest;
        match self.first {
            Some(part) => {
                let others = Parts {
                    first: None,
                    rest,
                    len: self.len - part.values.len(),
                };
                Some((part, others))
            }
            None => match rest.split_first() {
                Some((kept, rest)) => {
                    let part = kept.as_part();
                    let others = Parts {
                        first: None,
                        rest,
                        len: self.len - part.values.len(),
                    };
                    Some((part, others))
                }
                None => None,
            },
        }
    }

    /// How many values there are.
    pub fn len(&self) -> usize
        ensures { result ≡ length self.now.values }
    {
        self.len
    }
}
