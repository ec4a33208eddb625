//! What becomes of the value at a key.
ghost use Rattle.std.specs.Prelude.{◌≡◌, Option, Some, None, IfOk, OnOk};

use std::alloc::{AllocError, Global};

/// What becomes of the value at a key, whether there is one or not. A value that is there may be changed where it
/// stands.
pub trait ValueChange<V>: Drop {
    /// The value afterwards, by the one before.
    ghost becomes: { Self → Option V → V };

    /// The value where there is none.
    fn first(self, alloc: Global) -> Result<V, AllocError>
        ensures { IfOk result (λ v. v ≡ becomes self None) };

    /// Changes the value that is there; out of memory anything may be left of it.
    fn alter(self, alloc: Global, value: &mut V) -> Result<(), AllocError>
        ensures { OnOk result (value.new ≡ becomes self (Some value.old)) };
}

/// A value in place of any other.
#[derive(Drop)]
pub struct Put<V> {
    pub value: V,
}

impl<V: Drop> ValueChange<V> for Put<V> {
    ghost becomes = { λ p o. p.value };

    fn first(self, _alloc: Global) -> Result<V, AllocError> {
        Ok(self.value)
    }

    fn alter(self, _alloc: Global, value: &mut V) -> Result<(), AllocError> {
        *value = self.value;
        Ok(())
    }
}
