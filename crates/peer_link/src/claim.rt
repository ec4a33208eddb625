//! What a replica says of its own start when it greets: which start it is, and what it remembers. It is of the start,
//! so that a process always greets alike.
ghost use Rattle.std.specs.Prelude.{◌≡◌, ◌≢◌, ◌⊎◌, ◌+◌, ◌≤◌, ◌++◌, IfSome, IfNone, OnOk, length};
ghost use Rattle.peer_link.specs.Claims.{claim_in, claim_octets, flag, flag_in, number_at, numeral};

use std::alloc::AllocError;

/// How many octets a claim has.
pub const CLAIM: usize = 41;

/// What a start of a replica says of itself.
#[derive(Clone, Copy, Debug, PartialEq, Eq)]
pub struct Claim {
    /// Which start of the replica this is, counted from 1; its files hold the number before anything is said.
    pub start: u64,
    /// Tells two starts of one number apart.
    pub mark: u64,
    /// Whether it goes on from what it kept; else it recovers, and relies on nothing that it could have lost.
    pub remembers: bool,
    /// Its view at its start.
    pub view: u64,
    /// The last view in which its status was normal, at its start.
    pub last_normal: u64,
    /// How many records its log had at its start.
    pub length: u64,
}

/// 1 for yes, 0 for no.
fn flag_of(is: bool) -> u8
    ensures { result ≡ flag is }
{
    if is { 1 } else { 0 }
}

#[tactic(auto, unfolding(crate::specs::Claims::numeral))]
/// Puts a number. Its only error is want of memory.
fn put_number(out: &mut Vec<u8>, number: u64) -> Result<(), AllocError>
    ensures { OnOk result (out.new.items ≡ out.old.items ++ numeral number) }
{
    let octets = number.to_be_bytes();
    out.extend_from_slice(&octets)
}

/// Puts two numbers. Its only error is want of memory.
fn put_two(out: &mut Vec<u8>, one: u64, other: u64) -> Result<(), AllocError>
    ensures { OnOk result (out.new.items ≡ out.old.items ++ (numeral one ++ numeral other)) }
{
    put_number(out, one)?;
    put_number(out, other)
}

/// Puts a claim. Its only error is want of memory.
pub fn put_claim(out: &mut Vec<u8>, claim: &Claim) -> Result<(), AllocError>
    ensures { OnOk result (out.new.items ≡ out.old.items ++ claim_octets claim.now) }
{
    put_two(out, claim.start, claim.mark)?;
    out.push(flag_of(claim.remembers))?;
    put_two(out, claim.view, claim.last_normal)?;
    put_number(out, claim.length)
}

/// The number in the eight octets from a place on.
fn number_at(octets: &[u8], at: usize) -> u64
    requires { at + 8 ≤ length octets.now }
    ensures { result ≡ number_at at octets.now }
{
    let mut word = [0; 8];
    word.copy_from_slice(&octets[at..at + 8]);
    u64::from_be_bytes(word)
}

/// The claim that these octets spell; none where they don't say whether anything is remembered.
pub fn read_claim(octets: &[u8]) -> Option<Claim>
    requires { length octets.now ≡ 41 }
    ensures some { IfSome result (λ claim. (claim ≡ claim_in octets.now) × (flag_in octets.now ≤ 1)) }
    ensures none { IfNone result (1 + 1 ≤ flag_in octets.now) }
{
    let remembers = match octets[16] {
        0 => false,
        1 => true,
        _ => return None,
    };
    Some(Claim {
        start: number_at(octets, 0),
        mark: number_at(octets, 8),
        remembers,
        view: number_at(octets, 17),
        last_normal: number_at(octets, 25),
        length: number_at(octets, 33),
    })
}
