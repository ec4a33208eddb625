//! Tells of binds that were answered.
ghost use Rattle.std.specs.Prelude.{◌≡◌, ◌-◌, ◌<◌, length, Some, IfSome, IfNone, slice_get};
ghost use Rattle.client_link.specs.session_handler.View.{config_view};
ghost use Rattle.session_table.specs.Attending.{talk, IsSame};
ghost use Rattle.session_pool.specs.Answering.{Answers};

use crate::pool::SessionPool;
use crate::tells::SessionObserver;
use client_link::{Config, Directory, Step};
use session_table::PooledSession;
use std::alloc::{AllocError, Global};
use std::sync::Wait;
use std::time::Clock;

/// How many octets stand at the end of a bind's response from its code on (RFC 4511 4.2.2): the code, and two empty
/// texts.
const FROM_CODE: usize = 5;

/// The name in a bind, kept while the bind is answered.
fn kept(alloc: Global, name: Option<&str>) -> Option<Result<String, AllocError>> {
    match name {
        Some(name) => Some(String::from_str(alloc, name)),
        None => None,
    }
}

/// The code of the bind's response that octets end with.
fn code_at_end(octets: &[u8]) -> Option<u8>
    ensures some { IfSome result (λ code. slice_get octets.now (length octets.now - 5) ≡ Some code) }
    ensures none { IfNone result (length octets.now < 5) }
{
    if octets.len() < FROM_CODE {
        return None;
    }
    Some(octets[octets.len() - FROM_CODE])
}

impl<'a, R: Wait + Clock, T: SessionObserver> SessionPool<'a, R, T> {
    /// Tells of a bind that was answered; whether it is refused.
    fn tell_bind(
        &self,
        pooled: &PooledSession,
        step: Step,
        name: Result<String, AllocError>,
    ) -> bool {
        let code = match step {
            Step::Answered => code_at_end(pooled.unsent()),
            Step::Awaits | Step::Ends(_) => None,
        };
        let Some(code) = code else {
            return false;
        };
        if code == 0 {
            self.teller.bound();
            return false;
        }
        match name {
            Ok(name) => self
                .teller
                .refused(pooled.number(), Ok(name.as_str()), code),
            Err(error) => self.teller.refused(pooled.number(), Err(error), code),
        }
        true
    }

    /// Answers the next message, and tells of it where it is a bind. One that is refused is counted.
    pub fn answer_and_tell<D: Directory>(
        &self,
        pooled: &mut PooledSession,
        config: &Config,
        directory: &mut D,
    )
        ensures same { IsSame pooled.old pooled.new }
        ensures answers { Answers D.allows (config_view config.now) (talk pooled.old) (talk pooled.new) directory.old
            directory.new }
    {
        let name = kept(self.alloc, pooled.bind_next());
        let step = pooled.answer(self.alloc, config, directory);
        if let Some(name) = name {
            let is_refused = self.tell_bind(pooled, step, name);
            pooled.note_bind(is_refused);
        }
    }
}
