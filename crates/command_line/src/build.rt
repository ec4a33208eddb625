//! Says whether this program's proofs were checked.

/// How a program was built.
#[derive(Clone, Copy)]
pub enum Build {
    /// The prover has checked each function before it was built.
    Proved,
    /// It was compiled from the same sources, and nothing was checked.
    Unproved,
}

/// How this program was built. `tools/build --unproved` compiles a copy of the sources in which this line has the other
/// value.
pub const BUILD: Build = Build::Proved;

impl Build {
    /// Whether the program's proofs were checked.
    pub fn is_proved(self) -> bool {
        matches!(self, Build::Proved)
    }

    /// The program's version, without how it was built.
    pub fn number(self) -> &'static str {
        Build::Proved.version()
    }

    /// The program's version, as `--version` prints it.
    pub fn version(self) -> &'static str {
        match self {
            Build::Proved => "0.2.0",
            Build::Unproved => "0.2.0 unproved",
        }
    }
}
