//! The states of the scanner. Types alone.

use crate::place::{Around, ScanState};

/// Where a scanner of a filter stands, and what is round it, the innermost last.
#[derive(Drop)]
pub struct Scanner {
    pub place: ScanState,
    pub around: Vec<Around>,
}
