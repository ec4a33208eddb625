//! Where a reader of a value's text stands. Types alone.

/// Where a reader of octets stands.
#[derive(Clone, Copy)]
pub enum ValueState {
    Between,
    /// Behind a backslash.
    Escape,
    /// Behind a backslash and this octet, which is to be a hexadecimal digit.
    Half(u8),
}

/// What the next octet does to a reader.
#[derive(Clone, Copy)]
pub enum Turn {
    Refuses,
    Reads(ValueState),
    Gives(u8),
}
