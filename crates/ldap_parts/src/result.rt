//! The result of an operation.

ghost use Rattle.std.specs.Prelude.{◌≡◌};

use std::marker::Model;

/// resultCode (RFC 4511 4.1.9 and Appendix A): 0 to 2147483647. A code that has no name here is one too.
#[derive(Clone, Copy, Debug, PartialEq, Eq)]
pub struct ResultCode {
    number: u32,
}

impl Model for ResultCode {
    ghost use Rattle.std.specs.Prelude.{ℕ};

    ghost Value = { ℕ };

    ghost view = { λ c. c.number };

    ghost inverse = { λ n. record { number = n } };
}

impl ResultCode {
    pub const SUCCESS: ResultCode = ResultCode { number: 0 };

    pub const PROTOCOL_ERROR: ResultCode = ResultCode { number: 2 };

    pub const SIZE_LIMIT_EXCEEDED: ResultCode = ResultCode { number: 4 };

    pub const COMPARE_FALSE: ResultCode = ResultCode { number: 5 };

    pub const COMPARE_TRUE: ResultCode = ResultCode { number: 6 };

    pub const AUTH_METHOD_NOT_SUPPORTED: ResultCode = ResultCode { number: 7 };

    pub const REFERRAL: ResultCode = ResultCode { number: 10 };

    pub const UNAVAILABLE_CRITICAL_EXTENSION: ResultCode = ResultCode { number: 12 };

    pub const NO_SUCH_ATTRIBUTE: ResultCode = ResultCode { number: 16 };

    pub const UNDEFINED_ATTRIBUTE_TYPE: ResultCode = ResultCode { number: 17 };

    pub const CONSTRAINT_VIOLATION: ResultCode = ResultCode { number: 19 };

    pub const ATTRIBUTE_OR_VALUE_EXISTS: ResultCode = ResultCode { number: 20 };

    pub const INVALID_ATTRIBUTE_SYNTAX: ResultCode = ResultCode { number: 21 };

    pub const NO_SUCH_OBJECT: ResultCode = ResultCode { number: 32 };

    pub const INVALID_DN_SYNTAX: ResultCode = ResultCode { number: 34 };

    pub const INVALID_CREDENTIALS: ResultCode = ResultCode { number: 49 };

    pub const INSUFFICIENT_ACCESS_RIGHTS: ResultCode = ResultCode { number: 50 };

    pub const BUSY: ResultCode = ResultCode { number: 51 };

    pub const UNAVAILABLE: ResultCode = ResultCode { number: 52 };

    pub const UNWILLING_TO_PERFORM: ResultCode = ResultCode { number: 53 };

    pub const OBJECT_CLASS_VIOLATION: ResultCode = ResultCode { number: 65 };

    pub const NOT_ALLOWED_ON_NON_LEAF: ResultCode = ResultCode { number: 66 };

    pub const NOT_ALLOWED_ON_RDN: ResultCode = ResultCode { number: 67 };

    pub const ENTRY_ALREADY_EXISTS: ResultCode = ResultCode { number: 68 };

    pub const OBJECT_CLASS_MODS_PROHIBITED: ResultCode = ResultCode { number: 69 };

    pub const OTHER: ResultCode = ResultCode { number: 80 };

    /// The code of this number.
    pub fn new(number: u32) -> ResultCode
        ensures { result ≡ number }
    {
        ResultCode { number }
    }

    /// The number of the code.
    pub fn number(self) -> u32
        ensures { result ≡ self }
    {
        self.number
    }
}

/// LDAPResult (RFC 4511 4.1.9).
#[derive(Debug)]
pub struct LdapResult {
    pub code: ResultCode,
    /// matchedDN, a name as text.
    pub matched_dn: String,
    pub diagnostic_message: String,
    /// URIs. None and an empty list are one.
    pub referral: Vec<String>,
}

// Not derived: see "What the gate takes" in docs/ARCHITECTURE.md.
impl Drop for LdapResult {
    fn drop(self) {
        let LdapResult {
            code: _,
            matched_dn: _,
            diagnostic_message: _,
            referral: _,
        } = self;
    }
}
