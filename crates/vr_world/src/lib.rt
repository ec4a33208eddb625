//! Replicas under every schedule: what replication promises, whatever the network and crashes do. The definitions of a
//! world and of what is committed are in `specs/`; here stands the law over them.
//!
//! The world of replicas and messages, the law, and `Cluster`: vectors of real replicas, whose `world` is the
//! definitions' (`happening`: one event). A message is delivered by its index, and copied; a copy of a log copies
//! pointers to its updates.
//!
//! Proved: for every odd number of replicas from 3 on and every list of events there is one committed list. It only
//! grows, and what each replica has committed begins it (`one_committed_list`). The cluster makes the definitions'
//! events (`Cluster::happen`).
#![tactic(auto)]

ghost use Rattle.vr_world.specs.Law.{ChosenAgree, CommittedIsLongest, CommittedGrows, ReplicasAgree, CommitsAreHeld};
ghost use Rattle.vr_world.specs.Law.{NumbersRise, CommittedWasAsked, RepliesAreCommitted, RepliesAreExecuted, StepsKeep, MajoritiesHold, JournalsKeep};

mod acting;
mod beginnings;
pub mod cluster;
pub mod events;
mod happening;
mod moving;
mod placing;
mod posting;
mod resuming;
mod returning;
pub mod words;

pub use beginnings::beginnings_agree;
pub use cluster::Cluster;
pub use events::WorldEvent;
pub use words::ReplyBy;

/// The law: for every odd number of replicas of at least three and every list of events (requests, deliveries of any
/// message ever sent, suspicions, beats, crashes, recoveries, and replicas that go on from their journals) there is one
/// list of committed records, which only grows. The payload may be anything. It says nothing of progress, and nothing
/// of a network that forges messages.
pub fn one_committed_list<P>()
    // Of two chosen lists one is a beginning of the other.
    ensures agree { ChosenAgree P }
    // What is committed is the longest of them, and begins with each.
    ensures longest { CommittedIsLongest P }
    // What is committed stays so.
    ensures grows { CommittedGrows P }
    // The first k records of each replica, k its commit-number, are a beginning of it.
    ensures replicas { ReplicasAgree P }
    // A replica's log has the records that its commit-number counts.
    ensures held { CommitsAreHeld P }
    // Each client's request numbers rise along it, so that each request stands there once at most.
    ensures rising { NumbersRise P }
    // Each record of it was asked for: it is the request of an event that happened by then.
    ensures asked { CommittedWasAsked P }
    // Each reply names the record at its place in it.
    ensures replies { RepliesAreCommitted P }
    // A reply that is given names a record that its replica has committed by then.
    ensures executed { RepliesAreExecuted P }
    // A step keeps the records that its replica has committed.
    ensures keep { StepsKeep P }
    // Of any majority of replicas that are up and not recovering, one has all of it in its log.
    ensures majorities { MajoritiesHold P }
    // A replica that crashes and goes on from its journal has its view and its log as they were.
    ensures journals { JournalsKeep P }
{}
