//! The rule over what is published, and what its steps tell: types that clauses name.
ghost use Rattle.dir_seats.specs.Rule.{Keeps, Sees, newcomer};

use crate::shown::Shown;
use atomic_table::{Join, Split};
use crossbeam_utils::rule::{Outcome, Protocol};
use left_right::reader::{Factory, Reader};
use left_right::writer::Writer;
use state_machine::Executed;

/// Whether a reader knows anything, and the longest that it saw or was told of. No value of it is made.
pub type Floor = (bool, Executed);

/// What each reader knows is a beginning of what is published.
pub struct Published;

impl Protocol<Shown, Floor> for Published {
    ghost holds = { Keeps };

    ghost first = { newcomer };
}

/// A step that sees what is published.
pub struct Sight;

impl Outcome<Shown, Floor> for Sight {
    ghost then = { Sees };
}

/// The publisher keeps all that it knows, and tells all of it.
pub struct Whole;

impl Split<Floor> for Whole {
    ghost left = { λ floor. floor };

    ghost right = { λ floor. floor };
}

/// What is told stands in the place of what was known.
pub struct Learned;

impl Join<Floor> for Learned {
    ghost both = { λ floor told. told };

    ghost spent = { newcomer };
}

pub(crate) type ShownFactory = Factory<Shown, Floor, Published>;

pub(crate) type ShownReader = Reader<Shown, Floor, Published>;

pub(crate) type ShownWriter = Writer<Shown, Shown, Floor, Published>;
