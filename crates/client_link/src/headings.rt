//! How the frames of replicas begin: reads from the first octets how many follow.
use crate::gauge::{Heading, Rest};

/// The four octets of length that a frame of replicas begins with.
#[derive(Drop)]
pub struct FrameHeading;

impl Heading for FrameHeading {
    fn rest(octets: &[u8]) -> Rest {
        match octets {
            [a, b, c, d, ..] => Rest::Of(u64::from(u32::from_be_bytes([*a, *b, *c, *d]))),
            _ => Rest::Awaited,
        }
    }
}
