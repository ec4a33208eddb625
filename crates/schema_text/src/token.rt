//! One octet of a description.

/// An octet of a description between its outer parentheses (RFC 4512 1.4).
#[derive(Clone, Copy, Debug, PartialEq, Eq)]
pub enum Token {
    /// Outside lists and quoted texts; a quote mark too.
    Outer(u8),
    /// Inside a list, and no part of a quoted text; a quote mark too.
    Inner(u8),
    /// A part of a quoted text.
    Quoted(u8),
    /// The parenthesis that a list begins with.
    Open,
    /// The parenthesis that a list ends with.
    Close,
}

/// Where a reader of octets stands. The boolean of a quoted text tells whether it stands inside a list.
#[derive(Clone, Copy, Debug, PartialEq, Eq)]
pub enum Scan {
    Outside,
    Inside,
    Quote(bool),
    /// Behind a backslash in a quoted text.
    Escape(bool),
    /// Behind a backslash and this octet.
    Half(bool, u8),
}

/// What the next octet does to a reader.
#[derive(Clone, Copy, Debug, PartialEq, Eq)]
pub enum Step {
    Refuses,
    Gives(Token, Scan),
}
