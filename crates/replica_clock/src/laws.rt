//! Laws of a replica's patience.
ghost use Rattle.replica_clock.specs.Clock.{ACommitIsToldSoon, ALongViewIsAwaitedLonger, AMessageThatComesIsAwaited, AMessageThatIsTakenIsAwaited};
ghost use Rattle.replica_clock.specs.Runs.{AHeardPrimaryIsTrusted, ASilentPrimaryIsSuspected};

/// A long message is waited for as long as its parts come, or are taken; and the next view longer, where one was given
/// up meanwhile.
pub fn long_messages_are_awaited()
    ensures comes { AMessageThatComesIsAwaited }
    ensures taken { AMessageThatIsTakenIsAwaited }
    ensures longer { ALongViewIsAwaitedLonger }
{}

/// What a primary has committed it tells within a 256th of the time between beats, once its clock knows.
pub fn commits_are_told_soon()
    ensures { ACommitIsToldSoon }
{}

/// A backup that hears nothing of its primary suspects it within two suspect periods, and one that hears a sign of its
/// life doesn't for one.
pub fn silence_is_suspected()
    ensures silent { ASilentPrimaryIsSuspected }
    ensures heard { AHeardPrimaryIsTrusted }
{}
