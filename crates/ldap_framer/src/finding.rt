//! What stands where a message is to begin. Types alone.

use ldap_msg::{Message, MsgFault};
use std::collections::VecDeque;

/// What stands at the front of octets.
#[derive(Drop)]
pub enum Finding {
    /// A whole message, and how many octets it takes.
    Whole(Message, usize),
    /// Less than a whole message.
    Awaited,
    /// What stops the stream.
    Stopped(MsgFault),
}

/// The whole messages at the front, how many octets they take, and the fault that stands behind them.
#[derive(Drop)]
pub struct Cut {
    pub messages: VecDeque<Message>,
    pub taken: usize,
    pub fault: Option<MsgFault>,
}
