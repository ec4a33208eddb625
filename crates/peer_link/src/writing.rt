//! Spells a greeting: what all replicas have alike, and what its sender says of its start.
ghost use Rattle.std.specs.Prelude.{◌≡◌, ◌++◌, ℕ, IfOk, OnOk, IsFalse};
ghost use Rattle.peer_link.specs.Greeting.{earlier_octets, greeting_octets, heading_octets, terms_octets};

use crate::claim::{Claim, put_claim};
use crate::terms::Terms;
use std::alloc::{AllocError, Global};
use view_store::Cluster;

/// How many octets of a greeting are digests.
pub const DIGESTS: usize = 96;

/// The version of frames.
const VERSION: u8 = 2;

/// The kind of a greeting, which no message has, and no part of one.
const KIND: u8 = 14;

/// What stands before the digests: how many octets follow the first four, the version, the cluster, the kind and the
/// sender.
pub fn heading(cluster: Cluster, sender: u8) -> [u8; 13]
    ensures { result ≡ heading_octets cluster sender }
{
    let [_, _, a, b, c, d, e, f] = cluster.number().to_be_bytes();
    [0, 0, 0, 146, VERSION, a, b, c, d, e, f, KIND, sender]
}

/// What stands before the digests in version 0.2.0, whose greetings end behind them.
pub fn earlier_heading(cluster: Cluster, sender: u8) -> [u8; 13]
    ensures { result ≡ earlier_octets cluster sender }
{
    let [_, _, a, b, c, d, e, f] = cluster.number().to_be_bytes();
    [0, 0, 0, 105, VERSION, a, b, c, d, e, f, KIND, sender]
}

/// Whether some cluster's greeting may begin so.
pub fn begins_greeting(first: [u8; 13]) -> bool
    ensures own { IsFalse result → (cluster sender : ℕ) → (first ≡ heading_octets cluster sender) → ⊥ }
    ensures earlier { IsFalse result → (cluster sender : ℕ) → (first ≡ earlier_octets cluster sender) → ⊥ }
{
    let [a, b, c, d, version, _, _, _, _, _, _, kind, _] = first;
    [a, b, c, version, kind] == [0, 0, 0, VERSION, KIND] && (d == 146 || d == 105)
}

/// Puts the digests.
fn put_terms(out: &mut Vec<u8>, terms: &Terms) -> Result<(), AllocError>
    ensures { OnOk result (out.new.items ≡ out.old.items ++ terms_octets terms.now) }
{
    out.extend_from_slice(&terms.schema)?;
    out.extend_from_slice(&terms.suffix)?;
    out.extend_from_slice(&terms.clients)
}

/// The greeting of this sender in this cluster. Its only error is want of memory.
pub fn greeting(
    alloc: Global,
    cluster: Cluster,
    sender: u8,
    terms: &Terms,
    claim: &Claim,
) -> Result<Vec<u8>, AllocError>
    ensures { IfOk result (λ out. out.items ≡ greeting_octets cluster sender terms.now claim.now) }
{
    let mut out = Vec::new(alloc);
    out.extend_from_slice(&heading(cluster, sender))?;
    put_terms(&mut out, terms)?;
    put_claim(&mut out, claim)?;
    Ok(out)
}

/// The greeting of this sender in this cluster to a replica of version 0.2.0, which says nothing of its start. Its only
/// error is want of memory.
pub fn earlier_greeting(
    alloc: Global,
    cluster: Cluster,
    sender: u8,
    terms: &Terms,
) -> Result<Vec<u8>, AllocError>
    ensures { IfOk result (λ out. out.items ≡ earlier_octets cluster sender ++ terms_octets terms.now) }
{
    let mut out = Vec::new(alloc);
    out.extend_from_slice(&earlier_heading(cluster, sender))?;
    put_terms(&mut out, terms)?;
    Ok(out)
}
