//! Parts of a text, looked for in octets.

ghost use Rattle.std.specs.Prelude.{◌≡◌, ◌≢◌, ◌↔◌, ◌≤◌, ℕ, List, length, ◌++◌, option_copied, IsTrue, MatchOption};
ghost use Rattle.ldap_syntax.specs.Parts.{StandInOrder, HasParts, part_or_nothing};

use crate::key::Key;
use memchr::memmem;

/// What follows the first place where the part stands in the octets.
fn after_first<'a>(octets: &'a [u8], part: &[u8]) -> Option<&'a [u8]>
    ensures { MatchOption result ((before after : List ℕ) → octets.now ≢ before ++ part.now ++ after)
        (λ rest. (before : List ℕ) × (octets.now ≡ before ++ part.now ++ rest.now)
        × ((b a : List ℕ) → octets.now ≡ b ++ part.now ++ a → length before ≤ length b)) }
{
    // what looks for a part is made from all of it first
    if part.len() > octets.len() {
        return None;
    }
    let at = memmem::find(octets, part)?;
    Some(&octets[at + part.len()..])
}

/// What follows the part at the start of the octets.
fn behind<'a>(octets: &'a [u8], part: &[u8]) -> Option<&'a [u8]>
    ensures { MatchOption result ((x : List ℕ) → octets.now ≢ part.now ++ x)
        (λ rest. octets.now ≡ part.now ++ rest.now) }
{
    octets.strip_prefix(part)
}

/// What stands before the part at the end of the octets.
fn before<'a>(octets: &'a [u8], part: &[u8]) -> Option<&'a [u8]>
    ensures { MatchOption result ((x : List ℕ) → octets.now ≢ x ++ part.now)
        (λ rest. octets.now ≡ rest.now ++ part.now) }
{
    octets.strip_suffix(part)
}

/// Whether the parts stand in the octets in order, without overlap: each is taken where it first stands.
fn stand_in_order(parts: &[Key], octets: &[u8]) -> bool
    ensures { IsTrue result ↔ StandInOrder parts.now octets.now }
{
    let mut rest = octets;
    for part in parts {
        match after_first(rest, part.as_octets()) {
            Some(after) => rest = after,
            None => return false,
        }
    }
    true
}

/// The octets of a key; nothing, where there is none.
fn octets_of(key: Option<&Key>) -> &[u8]
    ensures { result.now ≡ part_or_nothing (option_copied key.entry) }
{
    match key {
        Some(key) => key.as_octets(),
        None => &[],
    }
}

impl Key {
    /// Whether the key has these parts: the initial one at its start, the last one at its end, and the others between
    /// them in order, none over another. Takes no memory, and time that grows with the length of the key and of the
    /// parts.
    pub fn has_parts(&self, initial: Option<&Key>, any: &[Key], last: Option<&Key>) -> bool
        ensures { IsTrue result
            ↔ HasParts (option_copied initial.entry) any.now (option_copied last.entry) self.now }
    {
        let Some(rest) = behind(self.as_octets(), octets_of(initial)) else {
            return false;
        };
        let Some(middle) = before(rest, octets_of(last)) else {
            return false;
        };
        stand_in_order(any, middle)
    }
}
