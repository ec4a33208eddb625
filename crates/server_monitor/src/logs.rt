//! What is logged where it is asked for, beside what is always told. Plain data.

/// What is logged beside what is always told.
#[derive(Clone, Copy)]
pub struct Logs {
    /// Whether each session's begin and end are logged, with its client's address.
    pub connections: bool,
    /// Whether each update is logged.
    pub updates: bool,
    /// On more than so many entries a search evaluates its filter that is logged.
    pub slow: u64,
}

/// How many notes wait to be written where only what is always told is said: seldom more than a few a second.
const FEW: usize = 128;

/// How many do where sessions or updates are logged: the busiest replica says no more in the time that the thread that
/// writes rests.
const MANY: usize = 16_384;

impl Logs {
    /// How many notes may wait to be written.
    pub fn notes(&self) -> usize {
        if self.connections || self.updates {
            MANY
        } else {
            FEW
        }
    }
}
