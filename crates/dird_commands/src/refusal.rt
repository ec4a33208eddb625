//! What a run that is refused tells: the fault in one line, and a second line that says what to mend, in which file,
//! word or line.

ghost use Rattle.std.specs.Prelude.{◌≡◌};
ghost use Rattle.dird_commands.specs.declared.fault.Fault.TheVariants.{NoMemory};

use crate::fault::Fault;
use std::alloc::{AllocError, AllocFailed};
use std::io::Write;

/// A fault, and what explains it; nothing, where that isn't known or there was no memory to say it.
#[derive(Drop)]
pub struct Refusal {
    pub fault: Fault,
    pub explanation: Option<String>,
}

impl Refusal {
    /// A fault with what was made to explain it.
    pub fn with_explanation(fault: Fault, explanation: Result<String, AllocError>) -> Refusal
        ensures { result.fault ≡ fault }
    {
        Refusal {
            fault,
            explanation: explanation.ok(),
        }
    }

    /// Writes both lines, as far as they can be written.
    pub fn tell<F: Write>(&self, faults: &mut F) {
        let _ = writeln!(faults, "{}", self.fault);
        if let Some(explanation) = &self.explanation {
            let _ = writeln!(faults, "{explanation}");
        }
    }
}

impl From<Fault> for Refusal {
    ghost from_gives = { λ fault refusal. refusal.fault ≡ fault };

    fn from(fault: Fault) -> Refusal {
        Refusal {
            fault,
            explanation: None,
        }
    }
}

impl From<AllocError> for Refusal {
    ghost from_gives = { λ _ refusal. refusal.fault ≡ NoMemory };

    fn from(_e: AllocError) -> Refusal {
        Refusal::from(Fault::NoMemory)
    }
}

impl<T: Drop> From<AllocFailed<T>> for Refusal {
    ghost from_gives = { λ _ refusal. refusal.fault ≡ NoMemory };

    fn from(_e: AllocFailed<T>) -> Refusal {
        Refusal::from(Fault::NoMemory)
    }
}
