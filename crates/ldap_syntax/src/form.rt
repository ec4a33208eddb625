//! What is kept of a value's texts, for rules of text that its type may lack.

ghost use Rattle.std.specs.Prelude.{◌≡◌, IfOk};
ghost use Rattle.ldap_syntax.specs.private.Seen.{are_seen as are_octets_seen};
ghost use Rattle.ldap_syntax.specs.Forms.{form_of, form_meets, has_met, TextsTell};

use crate::admitting::is_in_syntax;
use crate::key::Key;
use crate::plain::plain_meets;
use crate::texts::Texts;
use ldap_words::Rule;
use std::alloc::{AllocError, Global};
use std::marker::Model;

/// What is kept of a value's texts, by which it is compared under rules of text (RFC 4517 4.2) that its type may lack:
/// nothing, where each text is made of the value's octets alone.
pub struct Form {
    kept: Option<Box<Texts>>,
}

// Not derived: see "What the gate takes" in docs/ARCHITECTURE.md.
impl Drop for Form {
    fn drop(self) {
        let Form { kept: _ } = self;
    }
}

impl Model for Form {
    ghost use Rattle.std.specs.Option.{option_map};
    ghost use Rattle.ldap_syntax.specs.Forms.{FormModel};

    ghost Value = { FormModel };

    ghost view = { λ f. option_map (λ b. b.value) f.kept };
}

/// Whether octets are those of ASCII that are seen, with single SPACEs between them and none at an edge. Takes no
/// memory.
fn are_seen(octets: &[u8]) -> bool
    ensures { result ≡ are_octets_seen octets.now }
{
    let mut is_behind_space = true;
    for octet in octets {
        if *octet == b' ' {
            if is_behind_space {
                return false;
            }
            is_behind_space = true;
        } else {
            if *octet < 33 || *octet > 126 {
                return false;
            }
            is_behind_space = false;
        }
    }
    !is_behind_space
}

/// Nothing; it is where a list that holds few in place has none.
impl Default for Form {
    ghost use Rattle.std.specs.Prelude.{◌≡◌, None};

    ghost is_default = { λ f. f ≡ None };

    fn default() -> Form {
        Form { kept: None }
    }
}

impl Form {
    /// What is kept of a value's texts. Its only error is want of memory.
    #[tactic(auto, using(crate::proofs::Seen::seen_form))]
    pub fn new(alloc: Global, octets: &[u8]) -> Result<Form, AllocError>
        ensures { IfOk result (λ f. f ≡ form_of octets.now) }
    {
        if are_seen(octets) {
            return Ok(Form { kept: None });
        }
        let texts = Texts::new(alloc, octets)?;
        if texts.are_plain(octets) {
            return Ok(Form { kept: None });
        }
        Ok(Form {
            kept: Some(Box::new(alloc, texts)?),
        })
    }

    /// A copy.
    pub fn copy(&self, alloc: Global) -> Result<Form, AllocError>
        ensures { IfOk result (λ f. f ≡ self.now) }
    {
        match &self.kept {
            Some(texts) => {
                let copy = texts.copy(alloc)?;
                Ok(Form {
                    kept: Some(Box::new(alloc, copy)?),
                })
            }
            None => Ok(Form { kept: None }),
        }
    }

    /// Whether the value, whose texts these are, meets the asserted key by the rule's family.
    fn meets_by(&self, rule: Rule, octets: &[u8], less: bool, asserted: &Key) -> bool
        ensures { result ≡ form_meets rule.family less asserted.now self.now octets.now }
    {
        match &self.kept {
            Some(texts) => texts.meets(rule.family, less, asserted),
            None => plain_meets(rule.family, octets, less, asserted),
        }
    }

    /// Whether the value, whose texts these are, is in the rule's syntax and meets the asserted key: it has the key, or
    /// where an order is asked for stands before it. Takes no memory.
    pub fn meets(&self, rule: Rule, octets: &[u8], less: bool, asserted: &Key) -> bool
        ensures { result ≡ has_met rule less asserted.now self.now octets.now }
    {
        is_in_syntax(rule.syntax, octets) && self.meets_by(rule, octets, less, asserted)
    }
}

/// A value's texts tell what its key tells, under each rule of text.
pub fn texts_tell()
    ensures { TextsTell }
{}
