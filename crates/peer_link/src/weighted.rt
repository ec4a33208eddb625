//! An item with its weight. Plain data. What items weigh is their owner's to say.
ghost use Rattle.std.specs.Prelude.{◌≡◌};

/// Something that waits, and how heavy it counts.
pub struct Weighted<T> {
    pub item: T,
    pub weight: usize,
}

// Not derived: see "What the gate takes" in docs/ARCHITECTURE.md.
impl<T: Drop> Drop for Weighted<T> {
    fn drop(self) {
        let Weighted { item: _, weight: _ } = self;
    }
}

impl<T> Weighted<T> {
    /// The item alone.
    pub fn into_item(self) -> T
        ensures { result ≡ self.item }
    {
        let Weighted { item, weight: _ } = self;
        item
    }
}
