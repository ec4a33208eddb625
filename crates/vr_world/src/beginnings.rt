//! The law of what logs in messages and logs of replicas have in common: what a message may leave out for a receiver
//! that has it.
ghost use Rattle.vr_world.specs.Beginnings.{BeginningsAgree};

/// For every odd number of replicas of at least three and every list of events: of the log in a DOVIEWCHANGE or a
/// STARTVIEW that was ever sent, however late, and the log of any replica that is up, those first records are the same
/// that both count as committed.
pub fn beginnings_agree<P>()
    ensures { BeginningsAgree P }
{}
