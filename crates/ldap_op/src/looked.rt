//! An update that is looked at.

ghost use Rattle.std.specs.Prelude.{◌≡◌};
ghost use Rattle.ldap_op.specs.View.{update_view};
ghost use Rattle.ldap_op.specs.Looked.{looked_view};

use crate::update::Update;

/// An update, to be looked at.
pub enum Looked<'a> {
    /// It was read for this.
    Read(Update),
    /// It is there as it is.
    Kept(&'a Update),
}

// Not derived: see "What the gate takes" in docs/ARCHITECTURE.md.
impl<'a> Drop for Looked<'a> {
    fn drop(self) {
        match self {
            Looked::Read(_) => {}
            Looked::Kept(_) => {}
        }
    }
}

impl Looked<'_> {
    /// The update.
    pub fn update(&self) -> &Update
        ensures { update_view result.now ≡ looked_view self.now }
    {
        match self {
            Looked::Read(update) => update,
            Looked::Kept(update) => update,
        }
    }
}
