// The bound on ways up, which is far above what memory holds, so that counts of what stands on a way always fit.

ghost use Rattle.std.specs.Prelude.{◌≡◌, ◌+◌, ◌≤◌, IfOk};

use std::alloc::AllocError;
use std::marker::Model;

/// How many entries a way up has at most; never above 2^63.
#[derive(Clone, Copy)]
pub struct Reach {
    most: u64,
}

impl Model for Reach {
    ghost use Rattle.std.specs.Prelude.{ℕ, ◌≤◌};

    ghost Value = { ℕ };

    ghost view = { λ r. r.most };

    ghost inverse = { λ n. record { most = n } };

    ghost invariant = { λ r. r.most ≤ 9223372036854775808 };
}

impl Reach {
    /// One entry.
    pub fn one() -> Reach
        ensures { result ≡ 1 }
    {
        Reach { most: 1 }
    }

    /// How many entries.
    pub fn most(&self) -> u64
        ensures value { result ≡ self.now }
        ensures bound { result ≤ 9223372036854775808 }
    {
        self.most
    }

    /// So many more. Memory runs out long before the bound would.
    pub fn longer(&self, by: u64) -> Result<Reach, AllocError>
        ensures { IfOk result (λ r. r ≡ self.now + by) }
    {
        match self.most.checked_add(by) {
            Some(most) if most <= 9_223_372_036_854_775_808 => Ok(Reach { most }),
            Some(_) | None => Err(AllocError),
        }
    }
}
