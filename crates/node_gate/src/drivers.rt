//! Says who drives the node of a replica with a journal: a thread of its own, or one that brings an event.
ghost use Rattle.std.specs.Prelude.{◌≡◌, ◌↔◌, ◌<◌, IsTrue, IsFalse};
ghost use Rattle.node_gate.specs.private.Driving.{IsLookedAfter};
ghost use Rattle.node_gate.specs.declared.drivers.Driver.TheVariants as drives;

/// Who drives the node.
#[derive(Clone, Copy, Debug, PartialEq, Eq)]
pub enum Driver {
    /// Nobody does.
    Nobody,
    /// A thread that brings an event does, with that event alone. Then it calls the node's own thread for what waits.
    Bringer,
    /// The node's own thread does. It looks at what waits before it rests.
    Thread,
}

/// Whether a thread that brings an event drives the node with it, where so many events wait.
pub fn may_drive(driver: Driver, waiting: usize) -> bool
    ensures { IsTrue result ↔ ((driver ≡ drives.Nobody) × (waiting ≡ 0)) }
{
    driver == Driver::Nobody && waiting == 0
}

/// Whether the node's own thread is called, where so many events wait.
pub fn is_called(driver: Driver, waiting: usize) -> bool
    ensures looked_after { IsLookedAfter driver waiting result }
    ensures needed { IsTrue result → 0 < waiting }
{
    waiting > 0 && driver == Driver::Nobody
}
