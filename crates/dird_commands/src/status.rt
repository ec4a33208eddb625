//! The exit status of a run.
ghost use Rattle.std.specs.Prelude.{◌≡◌};

/// How a run ended.
#[derive(Clone, Copy)]
pub enum ExitStatus {
    Done,
    Refused,
    BadCommandLine,
}

impl ExitStatus {
    ghost use Rattle.dird_commands.specs.Status.{exit_code};

    /// The exit status.
    pub fn code(self) -> u8
        ensures { result ≡ exit_code self }
    {
        match self {
            ExitStatus::Done => 0,
            ExitStatus::Refused => 1,
            ExitStatus::BadCommandLine => 2,
        }
    }
}
