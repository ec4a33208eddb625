//! The answer to a search. Plain data.
use crate::found::FoundEntry;
use ldap_msg::ResultCode;

/// What a search finds.
#[derive(Drop)]
pub struct SearchAnswer {
    /// The resultCode of the SearchResultDone.
    pub code: ResultCode,
    /// Its matchedDN: with noSuchObject (32) the printed name of the nearest entry above the base, else empty.
    pub matched: String,
    /// In order of number.
    pub entries: Vec<FoundEntry>,
    /// On how many entries the filter was evaluated.
    pub tests: usize,
}
