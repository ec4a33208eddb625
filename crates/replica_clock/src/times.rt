//! How often a replica repeats itself, and how long it waits for its primary.
ghost use Rattle.std.specs.Prelude.{◌≡◌, ◌<◌, ◌≤◌, max, min};
ghost use Rattle.replica_clock.specs.Clock.{longest};

/// The longest time that is taken, 2^40: some twelve days, where the unit is a microsecond. Sums of such times can't
/// overflow.
const LONGEST: u64 = 1 << 40;

/// The times of a replica, in any unit, the same as that of the moments that its clock is told; each is 1 to 2^40.
#[derive(Clone, Copy, Debug, PartialEq, Eq)]
pub struct Times {
    beat: u64,
    suspect: u64,
    ghost in_range: { (0 < beat) × (beat ≤ longest) × (0 < suspect) × (suspect ≤ longest) },
}

impl Times {
    /// How often a replica sends again what others may have missed, and how long it hears nothing of its primary before
    /// it suspects it. What is outside 1 to 2^40 counts as the nearer of the two.
    pub fn new(beat: u64, suspect: u64) -> Times
        ensures beat { result.beat ≡ min (max beat 1) longest }
        ensures suspect { result.suspect ≡ min (max suspect 1) longest }
    {
        Times {
            beat: beat.max(1).min(LONGEST),
            suspect: suspect.max(1).min(LONGEST),
        }
    }

    /// How often a replica sends again what others may have missed.
    pub fn beat(&self) -> u64
        ensures { result ≡ self.now.beat }
    {
        self.beat
    }

    /// How long a replica hears nothing of its primary before it suspects it.
    pub fn suspect(&self) -> u64
        ensures { result ≡ self.now.suspect }
    {
        self.suspect
    }
}
