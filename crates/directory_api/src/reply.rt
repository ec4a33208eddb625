//! Replies to updates and compares. Plain data.
ghost use Rattle.std.specs.Prelude.{◌≡◌, IfOk};
ghost use Rattle.directory_api.specs.Answers.{only as only_code};
ghost use Rattle.directory_api.specs.View.{reply_view};

use ldap_msg::ResultCode;
use std::alloc::{AllocError, Global};

/// What an update or a compare is answered with (RFC 4511 4.1.9).
#[derive(Debug, Drop)]
pub struct Reply {
    /// resultCode.
    pub code: ResultCode,
    /// matchedDN: with noSuchObject (32) the printed name of the nearest entry above, else empty.
    pub matched: String,
}

impl Reply {
    /// A code, and no name. Takes no memory.
    pub fn only(alloc: Global, code: ResultCode) -> Reply
        ensures { reply_view result ≡ only_code code }
    {
        Reply {
            code,
            matched: String::new(alloc),
        }
    }

    /// An equal reply in memory of its own. Its only error is want of memory.
    pub fn copy(&self, alloc: Global) -> Result<Reply, AllocError>
        ensures { IfOk result (λ copied. reply_view copied ≡ reply_view self.now) }
    {
        let matched = String::from_str(alloc, &self.matched)?;
        Ok(Reply {
            code: self.code,
            matched,
        })
    }
}
