//! One octet of a name's text.

/// An octet of a name's text, as it stands there or spelled by an escape (RFC 4514 3).
#[derive(Clone, Copy)]
pub enum Token {
    Plain(u8),
    Escaped(u8),
}

/// Where a reader of octets stands between tokens, or inside one.
#[derive(Clone, Copy)]
pub enum Scan {
    Between,
    /// Behind a backslash.
    Escape,
    /// Behind a backslash and this octet, which is to be a hexadecimal digit.
    Half(u8),
}

/// What the next octet does to a reader.
#[derive(Clone, Copy)]
pub enum Step {
    Refuses,
    Reads(Scan),
    Gives(Token),
}
