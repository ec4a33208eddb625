//! The number of a cluster.
ghost use Rattle.std.specs.Prelude.{◌≡◌, ◌⊎◌, ◌≤◌, ◌^◌, MatchOption};
ghost use Rattle.view_store.specs.Cluster.{IsCluster};

use std::marker::Model;

/// The greatest number of a cluster, 281474976710655.
const MAX_CLUSTER: u64 = 0xffff_ffff_ffff;

/// The number of a cluster, 1 to 281474976710655. Replicas of one cluster share it, and no other cluster has it.
#[derive(Clone, Copy, Debug, PartialEq, Eq)]
pub struct Cluster {
    number: u64,
}

impl Model for Cluster {
    ghost use Rattle.std.specs.Prelude.{ℕ};
    ghost use Rattle.view_store.specs.Cluster.{IsCluster};

    ghost Value = { ℕ };

    ghost view = { λ c. c.number };

    ghost inverse = { λ n. record { number = n } };

    ghost invariant = { λ c. IsCluster c.number };
}

impl Cluster {
    /// The cluster of this number; none for 0 and for a number over 281474976710655.
    pub fn new(number: u64) -> Option<Cluster>
        ensures { MatchOption result ((number ≡ 0) ⊎ (2 ^ 48 ≤ number)) (λ cluster. (cluster ≡ number)
            × IsCluster number) }
    {
        if number == 0 || number > MAX_CLUSTER {
            return None;
        }
        Some(Cluster { number })
    }

    /// Its number.
    pub fn number(self) -> u64
        ensures same { result ≡ self }
        ensures fits { IsCluster result }
    {
        self.number
    }
}
