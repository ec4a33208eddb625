//! What the threads of a server ask of its node. Traits.
use crate::fault::ServerError;
use peer_threads::MessageHandler;
use server_monitor::Figures;

/// What monitors are shown.
pub trait Monitored {
    /// What the replica does. It waits for nobody.
    fn figures(&self) -> Figures;

    /// How many descriptors the process has open, where the system tells it.
    fn descriptors(&self) -> Option<u64>;
}

/// The node behind a server's threads.
pub trait Engine: Monitored + MessageHandler {
    /// Does what is due, moment by moment, until the node is stopped, or has stopped for good.
    fn run(&self) -> Result<(), ServerError>;

    /// Hands the node what waits for it, batch by batch, until it is stopped, or has stopped for good; at once where
    /// nothing waits for a thread that drives the node.
    fn drive(&self) -> Result<(), ServerError>;

    /// Has those who wait for an update's outcome look whether their clients have left. It takes no lock.
    fn look_again(&self);

    /// Stops the node.
    fn stop(&self);
}
