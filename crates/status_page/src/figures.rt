//! A replica's figures. Plain data.
ghost use Rattle.std.specs.Prelude.{◌≡◌};

/// What a replica does.
#[derive(Clone, Copy, PartialEq, Eq)]
pub enum Role {
    Primary,
    Backup,
    /// It waits for a view to begin.
    Changing,
    /// It has no state yet.
    Recovering,
}

/// What keeps a replica that has its state from serving as it should.
#[derive(Clone, Copy)]
pub enum Trouble {
    None,
    /// It has been at one step for longer than a suspect period.
    Stuck,
    /// It has been at one step for so long that it no longer says it is alive.
    Hung,
    /// It is the primary, and hears from no majority.
    NoMajority,
}

/// How far a start over a journal is.
#[derive(Clone, Copy)]
pub enum Start {
    /// The node is opened, and has made all that its journal told.
    Over,
    /// So many octets of the journal were read, of so many.
    Reading { octets: u64, whole: u64 },
    /// So many records were made, of so many that the journal told.
    Resuming { records: u64, whole: u64 },
}

/// How the program was built.
#[derive(Clone, Copy)]
pub enum Build {
    /// The prover has checked each function before it was built.
    Proved,
    /// Nothing was checked.
    Unproved,
}

/// What a replica does at a moment, as numbers.
#[derive(Clone, Copy)]
pub struct Figures {
    pub build: Build,
    pub role: Role,
    pub trouble: Trouble,
    pub start: Start,
    pub view_number: u64,
    /// The number of the last update that it has made.
    pub last_update: u64,
    /// How many entries its directory has, and how many entries its log.
    pub entries: u64,
    pub log_length: u64,
    /// How many clients are connected.
    pub sessions: u64,
}

/// A number with a label: of a result code, or of another replica.
#[derive(Clone, Copy)]
pub struct Labelled {
    /// The code, or the other replica's index.
    pub label: u64,
    pub number: u64,
}

/// What clients take, and which of them were sent away.
#[derive(Clone, Copy)]
pub struct ClientCounts {
    /// How many octets of memory their sessions hold, and how many all may.
    pub memory: u64,
    pub memory_limit: u64,
    /// How many sessions were ended because of that.
    pub ended: u64,
    /// How many sessions there may be.
    pub session_limit: u64,
    /// How many sessions were ended, or not begun, since there was no room for them.
    pub evicted: u64,
    /// How many octets were read of clients, and written to them.
    pub octets_read: u64,
    pub octets_written: u64,
}

/// A bound of a histogram, in seconds.
#[derive(Clone, Copy)]
pub enum BucketBound {
    Micros100,
    Micros300,
    Millis1,
    Millis3,
    Millis10,
    Millis30,
    Millis100,
    Millis300,
    Second1,
    Seconds3,
    Seconds10,
    /// There is none.
    Infinite,
}

/// How many of something took no longer than a bound.
#[derive(Clone, Copy)]
pub struct Bucket {
    pub bound: BucketBound,
    pub number: u64,
}

/// How long something took, each time.
pub struct Histogram {
    /// By bound, each once.
    pub buckets: Vec<Bucket>,
    /// How many microseconds all of them took together.
    pub micros: u64,
    pub count: u64,
}

// Not derived: see "What the gate takes" in docs/ARCHITECTURE.md.
impl Drop for Histogram {
    fn drop(self) {
        let Histogram {
            buckets: _,
            micros: _,
            count: _,
        } = self;
    }
}

/// How long requests took, and batches of events of the node.
pub struct Histograms {
    pub searches: Histogram,
    pub compares: Histogram,
    pub updates: Histogram,
    pub batches: Histogram,
}

// Not derived: see "What the gate takes" in docs/ARCHITECTURE.md.
impl Drop for Histograms {
    fn drop(self) {
        let Histograms {
            searches: _,
            compares: _,
            updates: _,
            batches: _,
        } = self;
    }
}

/// What passes between this replica and each other one, by its index.
pub struct PeerCounts {
    /// How many messages were queued for it.
    pub queued: Vec<Labelled>,
    /// How many of these were taken from the queue to be sent.
    pub sent: Vec<Labelled>,
    /// The last log entry that it has acknowledged to this one, by its number.
    pub acknowledged: Vec<Labelled>,
    /// How many starts of it were refused, since their files are older than what it said.
    pub refused: Vec<Labelled>,
    /// Whether it is heard: 1 or 0.
    pub connected: Vec<Labelled>,
    /// When it was heard last, in seconds since 1970; 0 for never.
    pub heard: Vec<Labelled>,
    /// How many octets of frames were sent to it, and came from it.
    pub octets_sent: Vec<Labelled>,
    pub octets_received: Vec<Labelled>,
}

// Not derived: see "What the gate takes" in docs/ARCHITECTURE.md.
impl Drop for PeerCounts {
    fn drop(self) {
        let PeerCounts {
            queued: _,
            sent: _,
            acknowledged: _,
            refused: _,
            connected: _,
            heard: _,
            octets_sent: _,
            octets_received: _,
        } = self;
    }
}

/// What the system tells of the process, and what the replica keeps; none, where the system doesn't tell.
#[derive(Clone, Copy)]
pub struct ProcessCounts {
    /// How many octets of memory it has.
    pub memory: Option<u64>,
    /// How many hundredths of a second of processors it took.
    pub processors: Option<u64>,
    /// How many descriptors it has open, and may have.
    pub descriptors: Option<u64>,
    pub descriptor_limit: Option<u64>,
    /// When it began, in seconds since 1970.
    pub began: u64,
    /// How many octets its journal's file has, where it keeps one.
    pub journal: Option<u64>,
    /// How many lines weren't written on standard error.
    pub dropped_lines: u64,
}

/// What a replica has answered since its start, and what it does at a moment. A list has each label once.
pub struct Counts {
    /// How many searches were answered, by result code.
    pub searches: Vec<Labelled>,
    /// How many compares were answered, by result code.
    pub compares: Vec<Labelled>,
    /// How many updates were answered, by result code.
    pub updates: Vec<Labelled>,
    /// How many binds were answered, by result code.
    pub binds: Vec<Labelled>,
    /// On how many entries searches evaluated their filters.
    pub evaluated: u64,
    /// How many searches did so on more entries than isn't logged.
    pub slow: u64,
    /// How many reads are being answered.
    pub reads: u64,
    /// How many threads answer reads.
    pub read_threads: u64,
    /// How many updates are being made.
    pub updating: u64,
    /// How many threads wait for updates.
    pub update_threads: u64,
    pub peers: PeerCounts,
    pub clients: ClientCounts,
    pub times: Histograms,
    pub process: ProcessCounts,
}

// Not derived: see "What the gate takes" in docs/ARCHITECTURE.md.
impl Drop for Counts {
    fn drop(self) {
        let Counts {
            searches: _,
            compares: _,
            updates: _,
            binds: _,
            evaluated: _,
            slow: _,
            reads: _,
            read_threads: _,
            updating: _,
            update_threads: _,
            peers: _,
            clients: _,
            times: _,
            process: _,
        } = self;
    }
}

impl BucketBound {
    ghost use Rattle.status_page.specs.Samples.{bound_word, bound_holds};

    /// The bound in seconds, as Prometheus writes it.
    pub fn word(self) -> &'static str
        ensures { result.now ≡ bound_word self }
    {
        match self {
            BucketBound::Micros100 => "0.0001",
            BucketBound::Micros300 => "0.0003",
            BucketBound::Millis1 => "0.001",
            BucketBound::Millis3 => "0.003",
            BucketBound::Millis10 => "0.01",
            BucketBound::Millis30 => "0.03",
            BucketBound::Millis100 => "0.1",
            BucketBound::Millis300 => "0.3",
            BucketBound::Second1 => "1",
            BucketBound::Seconds3 => "3",
            BucketBound::Seconds10 => "10",
            BucketBound::Infinite => "+Inf",
        }
    }

    /// Whether so many microseconds are no more than the bound.
    pub fn holds(self, micros: u64) -> bool
        ensures { result ≡ bound_holds self micros }
    {
        match self {
            BucketBound::Micros100 => micros <= 100,
            BucketBound::Micros300 => micros <= 300,
            BucketBound::Millis1 => micros <= 1_000,
            BucketBound::Millis3 => micros <= 3_000,
            BucketBound::Millis10 => micros <= 10_000,
            BucketBound::Millis30 => micros <= 30_000,
            BucketBound::Millis100 => micros <= 100_000,
            BucketBound::Millis300 => micros <= 300_000,
            BucketBound::Second1 => micros <= 1_000_000,
            BucketBound::Seconds3 => micros <= 3_000_000,
            BucketBound::Seconds10 => micros <= 10_000_000,
            BucketBound::Infinite => true,
        }
    }
}

impl Role {
    ghost use Rattle.status_page.specs.Pages.{serves, role_word};

    /// Whether the replica serves clients.
    pub fn serves(self) -> bool
        ensures { result ≡ serves self }
    {
        matches!(self, Role::Primary | Role::Backup)
    }

    /// Its name.
    pub fn name(self) -> &'static str
        ensures { result.now ≡ role_word self }
    {
        match self {
            Role::Primary => "primary",
            Role::Backup => "backup",
            Role::Changing => "changing",
            Role::Recovering => "recovering",
        }
    }
}

impl Build {
    ghost use Rattle.status_page.specs.Pages.{proved_word};

    /// Whether the program's proofs were checked.
    pub fn proved_word(self) -> &'static str
        ensures { result.now ≡ proved_word self }
    {
        match self {
            Build::Proved => "yes",
            Build::Unproved => "no",
        }
    }
}
