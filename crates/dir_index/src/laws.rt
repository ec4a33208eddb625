// Laws of posting lists that several threads share.

use crate::postings::Postings;
use std::marker::{Send, Sync};

fn crosses<T: Send + Sync>(_value: &T) {}

/// Posting lists may be moved to other threads, and read by several at once.
pub fn may_cross(postings: &Postings) {
    crosses(postings);
}
