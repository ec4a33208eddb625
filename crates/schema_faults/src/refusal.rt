//! Which rule a text breaks, as its refusal's number says. Lines are told beside it.

/// Why a text is no schema.
#[derive(Clone, Copy)]
pub enum SchemaRefusal {
    /// E12: the line is no description, or one that is bad beside the others.
    BadDescription,
    /// E13: the line names what is not there.
    UnknownName,
    /// E14: the SUP of the line leads back to it.
    Loop,
    /// E15: the type has no EQUALITY.
    NoEquality,
}

/// Why a text is no index choice.
#[derive(Clone, Copy)]
pub enum IndexRefusal {
    /// E12: the line is no type with kinds of index.
    BadDescription,
    /// E13: the schema has no such type.
    UnknownName,
    /// E16: the type lacks a rule that a kind of index needs.
    NoRule,
}
