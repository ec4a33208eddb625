//! Writes octets over others in memory, and zeros behind them.
ghost use Rattle.std.specs.Prelude.{◌≡◌, ◌+◌, ◌≤◌, ◌++◌, length, replicate, IfOk};
ghost use Rattle.journal.specs.Memory.{written};

use std::alloc::{AllocError, Global};

/// Octets written over what is there.
pub fn spliced(alloc: Global, bytes: &[u8], at: usize, octets: &[u8]) -> Result<Vec<u8>, AllocError>
    requires { at + length octets.now ≤ length bytes.now }
    ensures { IfOk result (λ r. r.items ≡ written at octets.now bytes.now) }
{
    let (before, behind) = bytes.split_at(at);
    let (_, after) = behind.split_at(octets.len());
    let mut next = before.to_vec(alloc)?;
    next.extend_from_slice(octets)?;
    next.extend_from_slice(after)?;
    Ok(next)
}

/// Octets with so many zeros behind them.
pub fn longer(alloc: Global, bytes: &[u8], octets: usize) -> Result<Vec<u8>, AllocError>
    ensures { IfOk result (λ r. r.items ≡ bytes.now ++ replicate octets 0) }
{
    let zeros = vec![in alloc; 0u8; octets]?;
    let mut next = bytes.to_vec(alloc)?;
    next.extend_from_slice(&zeros)?;
    Ok(next)
}
