//! Writes octets over others.
ghost use Rattle.std.specs.Prelude.{◌≤◌, length, IfOk};
ghost use Rattle.view_store.specs.Device.{Holds};

use std::alloc::{AllocError, Global};

/// Octets written over what is there, and past the end.
pub fn spliced(alloc: Global, bytes: &[u8], at: usize, octets: &[u8]) -> Result<Vec<u8>, AllocError>
    requires { at ≤ length bytes.now }
    ensures { IfOk result (λ r. Holds bytes.now at octets.now r.items) }
{
    let (before, behind) = bytes.split_at(at);
    let mut next = before.to_vec(alloc)?;
    next.extend_from_slice(octets)?;
    if octets.len() < behind.len() {
        let (_, after) = behind.split_at(octets.len());
        next.extend_from_slice(after)?;
    }
    Ok(next)
}
