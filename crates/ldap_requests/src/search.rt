//! A search request.

use ldap_filter::Filter;

/// SearchRequest (RFC 4511 4.5.1).
#[derive(Debug)]
pub struct SearchRequest {
    /// baseObject, a name as text.
    pub base: String,
    pub scope: Scope,
    pub deref_aliases: DerefAliases,
    /// The most entries that are asked for, 0 to 2147483647; 0 is no limit.
    pub size_limit: u32,
    /// In seconds, 0 to 2147483647; 0 is no limit.
    pub time_limit: u32,
    pub types_only: bool,
    pub filter: Filter,
    /// AttributeSelection: descriptions, `*` and `1.1`; none asks for all user attributes.
    pub attributes: Vec<String>,
}

// Not derived: see "What the gate takes" in docs/ARCHITECTURE.md.
impl Drop for SearchRequest {
    fn drop(self) {
        let SearchRequest {
            base: _,
            scope: _,
            deref_aliases: _,
            size_limit: _,
            time_limit: _,
            types_only: _,
            filter: _,
            attributes: _,
        } = self;
    }
}

/// The scope of a search (RFC 4511 4.5.1.2), 0 to 3 on the wire.
#[derive(Clone, Copy, Debug, PartialEq, Eq)]
pub enum Scope {
    /// 0: the base alone.
    BaseObject,
    /// 1: the children of the base.
    SingleLevel,
    /// 2: the base and all below it.
    WholeSubtree,
    /// 3: all below the base.
    SubordinateSubtree,
}

/// What is done with aliases (RFC 4511 4.5.1.3), 0 to 3 on the wire.
#[derive(Clone, Copy, Debug, PartialEq, Eq)]
pub enum DerefAliases {
    /// 0
    NeverDerefAliases,
    /// 1
    DerefInSearching,
    /// 2
    DerefFindingBaseObj,
    /// 3
    DerefAlways,
}
