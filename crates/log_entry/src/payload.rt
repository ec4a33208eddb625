//! What a log entry asks for, as far as replication needs to know it: a value that can be copied.

ghost use Rattle.std.specs.Prelude.{◌≡◌, IfOk};

use std::alloc::{AllocError, Global};

/// The payload of a record. Replicas keep it in their logs and send copies of it to each other.
pub trait Payload: Drop + Sized {
    /// An equal value in memory of its own. Its only error is want of memory.
    fn copy(&self, alloc: Global) -> Result<Self, AllocError>
        ensures { IfOk result (λ copied. copied ≡ self.now) };
}
