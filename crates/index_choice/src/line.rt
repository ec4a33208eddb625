// What a line of an index choice says. Plain data, made by the reader of lines.

use crate::kinds::Kinds;
use dir_entry::TypeId;

/// What a line's name stands for.
#[derive(Clone, Copy)]
pub enum Named {
    Known(TypeId),
    Unknown,
}

/// A line: its number from 1, what it names, and the kinds that it asks for.
#[derive(Clone, Copy)]
pub struct IndexLine {
    pub number: usize,
    pub named: Named,
    pub kinds: Kinds,
}
