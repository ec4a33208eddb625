//! Prepares the parts of a substrings assertion, and looks for them in keys.

ghost use Rattle.std.specs.Prelude.{◌≡◌, ℕ, List, None, Some, IfOk, IsErrOf, map};
ghost use Rattle.std.specs.Option.{option_copied, option_map};
ghost use Rattle.ldap_dn.specs.ldap_syntax.Keys.{part_key_at};
ghost use Rattle.ldap_dn.specs.ldap_syntax.declared.preparing.Part.TheVariants.{Any};
ghost use Rattle.ldap_match.specs.Parts.{PartsModel, has_parts};
ghost use Rattle.ldap_match.specs.Item.{end_by, each_by};
ghost use Rattle.ldap_match.specs.Keyed.{part_keys_at};

use ldap_dn::{Key, Part, Rule, ValueError, part_key_of};
use std::alloc::Global;
use std::marker::Model;

/// The keys of the parts of a substrings assertion under a rule.
pub struct PartKeys {
    initial: Option<Key>,
    any: Vec<Key>,
    last: Option<Key>,
}

// Not derived: see "What the gate takes" in docs/ARCHITECTURE.md.
impl Drop for PartKeys {
    fn drop(self) {
        let PartKeys {
            initial: _,
            any: _,
            last: _,
        } = self;
    }
}

impl Model for PartKeys {
    ghost use Rattle.ldap_match.specs.Parts.{PartsModel};

    ghost Value = { PartsModel };

    ghost view = { λ p. record { initial = p.initial; any = p.any.items; last = p.last } };
}

impl PartKeys {
    /// Whether the key has the parts: the initial one at its start, the last one at its end, and the others between
    /// them in order, none over another. Takes no memory.
    pub fn stand_in(&self, key: &Key) -> bool
        ensures { result ≡ has_parts self.now key.now }
    {
        key.has_parts(self.initial.as_ref(), &self.any, self.last.as_ref())
    }

    /// The key of the initial part, if there is one.
    pub fn initial(&self) -> Option<&Key>
        ensures { option_copied result ≡ self.now.initial }
    {
        self.initial.as_ref()
    }

    /// The keys of the parts between, in order.
    pub fn any(&self) -> &[Key]
        ensures { result.now ≡ self.now.any }
    {
        self.any.as_slice()
    }

    /// The key of the final part, if there is one.
    pub fn last(&self) -> Option<&Key>
        ensures { option_copied result ≡ self.now.last }
    {
        self.last.as_ref()
    }
}

/// The key of a part that may be left out.
fn end_key(
    alloc: Global,
    rule: Rule,
    part: Part,
    octets: &Option<Vec<u8>>,
) -> Result<Option<Key>, ValueError>
    ensures key { IfOk result (λ k. end_by (part_key_at rule part) (option_map
        (λ v. v.items) octets.now) ≡ Some k) }
    ensures not_in_syntax { IsErrOf result ValueError.NotInSyntax
        → end_by (part_key_at rule part) (option_map (λ v. v.items) octets.now) ≡ None }
{
    match octets {
        Some(octets) => {
            let key = part_key_of(alloc, rule, part, octets)?;
            Ok(Some(key))
        }
        None => Ok(None),
    }
}

/// The keys of the parts between.
fn any_keys(alloc: Global, rule: Rule, any: &[Vec<u8>]) -> Result<Vec<Key>, ValueError>
    ensures key { IfOk result (λ v. each_by (part_key_at rule Any) (map (λ x. x.items) any.now) ≡ Some v.items) }
    ensures not_in_syntax { IsErrOf result ValueError.NotInSyntax
        → each_by (part_key_at rule Any) (map (λ x. x.items) any.now) ≡ None }
{
    let mut keys = Vec::new(alloc);
    for part in any {
        let key = part_key_of(alloc, rule, Part::Any, part)?;
        keys.push(key)?;
    }
    Ok(keys)
}

/// The keys of the parts under the rule; E11 where one is no part of a value of its syntax.
pub fn part_keys(
    alloc: Global,
    rule: Rule,
    initial: &Option<Vec<u8>>,
    any: &[Vec<u8>],
    last: &Option<Vec<u8>>,
) -> Result<PartKeys, ValueError>
    ensures key { IfOk result (λ p. part_keys_at rule (record {
      initial = option_map (λ v. v.items) initial.now;
      any = map (λ v. v.items) any.now;
      last = option_map (λ v. v.items) last.now;
    }) ≡ Some p) }
    ensures not_in_syntax { IsErrOf result ValueError.NotInSyntax → part_keys_at rule (record {
      initial = option_map (λ v. v.items) initial.now;
      any = map (λ v. v.items) any.now;
      last = option_map (λ v. v.items) last.now;
    }) ≡ None }
{
    let initial = end_key(alloc, rule, Part::Initial, initial)?;
    let any = any_keys(alloc, rule, any)?;
    let last = end_key(alloc, rule, Part::Final, last)?;
    Ok(PartKeys { initial, any, last })
}
