// The kinds of index that a type may have. Plain data, for what keeps posting lists and what plans by them.

/// Which indexes a type has.
#[derive(Clone, Copy, Debug, PartialEq, Eq)]
pub struct Kinds {
    /// Which entries have an attribute of the type (`pres`).
    pub presence: bool,
    /// Which entries hold each value of the type (`eq`).
    pub equality: bool,
    /// The same, by values in order (`ord`).
    pub ordering: bool,
    /// Which entries hold each run of three octets of a prepared value (`sub`).
    pub substrings: bool,
}
