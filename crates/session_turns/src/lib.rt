//! Decides which session has its turn and what each thread does next, and whose session is ended where clients together
//! hold more memory than they may. It reads no clock and no socket, and takes no lock.
//!
//! Threads that serve sessions are seats. After each message a seat asks `follows`. It looks which sockets are ready
//! where nobody waits for them and the last look is a millisecond old. It ends its stay with a session where others are
//! ready and the stay is a millisecond old. `Lead` keeps which seats rest and whether one looks (leads): `free` says
//! what a seat does that has no session. Times are microseconds from any one beginning.
//!
//! - *Classes.* A session owes the time that seats spent on its messages (`Debt`), less a 64th of the time that went
//! by.
//!   Sessions that are ready wait in one of four classes (`Turns`): the less a session owes, the sooner its class has
//! its turn. The first of the least class is next. After seven such turns it is the session that has waited longest of
//!   all, so that none waits for ever.
//! - *Queues.* Sessions that wait for something else have a place in a queue (silent, inside a message, octets unsent,
//!   over, delayed), or are away (`Book`). A queue is an ordered map by turns.
//! - *Memory.* `Holders` keeps, for each place at which a session waits, what that holds, from 4 KiB on; `rather` says
//! which of them is ended in place of the one that wants more: an anonymous session before the manager's, and of alike
//!   ones the one that holds most. `change_to` says by how much the sum changes where a session holds more or less than
//!   before. `Budget` is that sum, which all threads share, with its limit.
//!
//! Proved: what `follows` answers, in each case. A look begins for one seat until that ends it (`begin_look`,
//! `end_look`). While seats rest, one leads or a call of one is under way (`who_rests_is_watched`). A session that
//! takes at most a 64th of a seat's time stays of the first class (`small_shares_stay_first`). The nth of all that wait
//! is taken within 8 n turns (`each_is_taken_in_time`), the nth of the first class within n turns and a seventh more
//! (`first_ones_are_taken_soon`). Where each place is, and which has been in a queue longest (`Book`). Whose session is
//! ended, and that none is which holds less than 4 KiB (`Holders::rather`). Whatever sessions come to hold, in any
//! order, the sum is what is posted of all of them, no less and no more (`used_is_posted`). That threads follow these
//! answers and post what their sessions hold is tested (`tests/hostile`).
#![tactic(auto)]

mod book;
mod budget;
mod class_queues;
mod following;
mod holders;
mod owing;
mod posting;
mod queues;
mod resting;
mod spot;
mod turns;

pub use book::Book;
pub use budget::{Budget, limit_of};
pub use following::{After, Seen, follows};
pub use holders::{Holder, Holders};
pub use owing::{Class, Debt, small_shares_stay_first};
pub use posting::{BudgetChange, change_to, used_is_posted};
pub use resting::{Act, Call, Lead, Was, who_rests_is_watched};
pub use spot::{Queue, Spot};
pub use turns::{Turns, each_is_taken_in_time, first_ones_are_taken_soon};
