//! Where a scanner stands. Types alone.

/// Where a scanner of an oid stands.
#[derive(Clone, Copy)]
pub enum OidPlace {
    /// In a short name.
    Letters,
    /// Behind a first `0`.
    Zero,
    /// In a first number.
    Number,
    Dot,
    /// Behind a `0` that a dot is before.
    DottedZero,
    /// In a number that a dot is before.
    DottedNumber,
}

/// Where a scanner of an attribute description stands.
#[derive(Clone, Copy)]
pub enum NamePlace {
    Oid(OidPlace),
    /// Before an option.
    Semicolon,
    /// In an option.
    Keys,
}

/// Where a scanner of a value stands.
#[derive(Clone, Copy)]
pub enum ValuePlace {
    Between,
    /// Behind a backslash.
    Escape,
    /// Behind a backslash and a hexadecimal digit.
    Half,
}

/// What the word behind a colon is so far.
#[derive(Clone, Copy)]
pub enum Word {
    /// `d` or `D`.
    OnlyD,
    /// `dn` in any case.
    Dn,
    Other,
}

/// Where a scanner of an item stands.
#[derive(Clone, Copy)]
pub enum ItemPlace {
    Start,
    /// In a description.
    Name(NamePlace),
    /// Behind `>`, `<` or `~`.
    Sign,
    /// In a value that has no asterisks.
    Plain(ValuePlace),
    /// Behind `=`, in a value that may have asterisks.
    Part(ValuePlace),
    /// Behind an asterisk.
    Star,
    /// Behind a colon at the beginning.
    BareColon,
    /// Behind a description and a colon.
    Colon,
    /// In the word behind the first colon.
    Rule(Word, OidPlace),
    /// Behind `:dn:`.
    DnColon,
    /// In the rule behind `:dn:`.
    LastRule(OidPlace),
    /// Behind the last colon.
    Assign,
}

/// What stands round a filter.
#[derive(Clone, Copy)]
pub enum Around {
    /// An `and` or an `or`, in which more filters may follow.
    Row,
    Negation,
}

/// Where a scanner of a filter stands.
#[derive(Clone, Copy)]
pub enum ScanState {
    /// Before a filter.
    Opening,
    /// Behind a filter's `(`.
    Inside,
    InItem(ItemPlace),
    /// Behind a filter, or behind `(&` or `(|`.
    Behind,
}
