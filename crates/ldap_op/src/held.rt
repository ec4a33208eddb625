//! How an update lies in memory.

ghost use Rattle.std.specs.Prelude.{◌≡◌};
ghost use Rattle.std.specs.Borrow.{ftrue};
ghost use Rattle.ldap_op.specs.Values.{OpValue};
ghost use Rattle.ldap_op.specs.View.{update_view};
ghost use Rattle.ldap_op.specs.Written.{IsSpelled, HasNoSpelling};

use crate::update::Update;
use std::marker::{Model, PhantomData};

/// The value of an update, for clauses alone: it has no octets.
#[derive(Drop)]
pub struct Meaning {
    marker: PhantomData<u8>,
    pub ghost update: { OpValue },
}

impl Model for Meaning {
    ghost also_owns = { λ _. ftrue };
}

impl Meaning {
    /// That of an update.
    pub fn of(_update: &Update) -> Meaning
        ensures { result.update ≡ update_view _update.now }
    {
        Meaning {
            marker: PhantomData,
        }
    }
}

/// The octets that are written of an update, and are read as it. Contracts see the update.
pub struct Spelled {
    octets: Vec<u8>,
    meaning: Meaning,
}

// Not derived: see "What the gate takes" in docs/ARCHITECTURE.md.
impl Drop for Spelled {
    fn drop(self) {
        let Spelled {
            octets: _,
            meaning: _,
        } = self;
    }
}

impl Model for Spelled {
    ghost use Rattle.ldap_op.specs.Values.{OpValue};
    ghost use Rattle.ldap_op.specs.Written.{IsSpelled};

    ghost Value = { OpValue };

    ghost view = { λ s. s.meaning.update };

    ghost invariant = { λ s. IsSpelled s.meaning.update s.octets.items };
}

impl Spelled {
    /// An update, as these octets.
    pub fn new(octets: Vec<u8>, update: &Update) -> Spelled
        requires { IsSpelled (update_view update.now) octets.items }
        ensures { result ≡ update_view update.now }
    {
        let meaning = Meaning::of(update);
        Spelled { octets, meaning }
    }

    /// The octets.
    pub fn as_slice(&self) -> &[u8]
        ensures { IsSpelled self.now result.now }
    {
        self.octets.as_slice()
    }
}

/// An update that no octets spell. Contracts see the update.
pub struct Unspelled {
    update: Box<Update>,
}

// Not derived: see "What the gate takes" in docs/ARCHITECTURE.md.
impl Drop for Unspelled {
    fn drop(self) {
        let Unspelled { update: _ } = self;
    }
}

impl Model for Unspelled {
    ghost use Rattle.ldap_op.specs.Values.{OpValue};
    ghost use Rattle.ldap_op.specs.View.{update_view};
    ghost use Rattle.ldap_op.specs.Written.{HasNoSpelling};

    ghost Value = { OpValue };

    ghost view = { λ u. update_view u.update.value };

    ghost invariant = { λ u. HasNoSpelling (update_view u.update.value) };
}

impl Unspelled {
    /// An update, which no octets spell.
    pub fn new(update: Box<Update>) -> Unspelled
        requires { HasNoSpelling (update_view update.value) }
        ensures { result ≡ update_view update.value }
    {
        Unspelled { update }
    }

    /// The update.
    pub fn update(&self) -> &Update
        ensures is { update_view result.now ≡ self.now }
        ensures unspelled { HasNoSpelling self.now }
    {
        &self.update
    }
}

/// How an update lies in memory.
pub enum Held {
    /// As its octets.
    Written(Spelled),
    /// As itself, since no octets are read as it: an attribute of an add has no value, or it is too long for any
    /// message.
    Loose(Unspelled),
}

// Not derived: see "What the gate takes" in docs/ARCHITECTURE.md.
impl Drop for Held {
    fn drop(self) {
        match self {
            Held::Written(_) => {}
            Held::Loose(_) => {}
        }
    }
}
