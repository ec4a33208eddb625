//! How much of two logs is alike.
ghost use Rattle.std.specs.Prelude.{◌≡◌, ◌≤◌, IsTrue, drop, length, take};
ghost use Rattle.std.specs.Bool.{OnFalse};
ghost use Rattle.log_journal.specs.Apart.{AreApart, ComeApart};

use crate::spelling::is_same;
use ldap_op::Op;
use vr_state::words::LogEntry;

/// Whether two records are found equal.
fn is_same_entry(one: &LogEntry<Op>, other: &LogEntry<Op>) -> bool
    ensures same { IsTrue result → one.now ≡ other.now }
    ensures apart { OnFalse result (AreApart one.now other.now) }
{
    one.client == other.client
        && one.request_number == other.request_number
        && is_same(&one.payload, &other.payload)
}

/// Up to where two logs are found alike, from the front.
pub fn count_alike(old: &[LogEntry<Op>], new: &[LogEntry<Op>]) -> usize
    ensures alike { take result old.now ≡ take result new.now }
    ensures within { result ≤ length new.now }
    ensures stops { ComeApart (drop result old.now) (drop result new.now) }
{
    let most = old.len().min(new.len());
    for at in 0..most {
        if !is_same_entry(&old[at], &new[at]) {
            return at;
        }
    }
    most
}
