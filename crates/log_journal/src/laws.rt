//! Laws about the definitions, as functions that do nothing but name the laws that they rest on.
ghost use Rattle.log_journal.specs.Batches.{BatchesAreTold, OneIsTold, ToldGoesOn};
ghost use Rattle.log_journal.specs.Fields.{FieldsAreRead};
ghost use Rattle.log_journal.specs.Taken.{TakenIsTold};

use ldap_op::{Op, one_op};
use vr_state::each_step;

/// The string of a note's fields is read as these fields.
pub fn fields_are_read()
    ensures { FieldsAreRead }
{}

/// The strings of a batch of events tell what the events make of a replica, and some first of them what some first of
/// the events make of it.
pub fn batches_are_told()
    ensures { BatchesAreTold }
{
    each_step::<Op>();
}

/// Strings tell one thing.
pub fn one_is_told()
    ensures { OneIsTold }
{
    one_op();
}

/// What strings tell goes on with those behind them.
pub fn told_goes_on()
    ensures { ToldGoesOn }
{}

/// Batches that are taken are told.
pub fn taken_is_told()
    ensures { TakenIsTold }
{
    batches_are_told();
}
