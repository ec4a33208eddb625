//! The first octets behind a frame's length. Takes nine octets and a cluster; gives the kind and the sender, before
//! memory is taken for the rest.
ghost use Rattle.std.specs.Prelude.{◌≡◌, length};
ghost use Rattle.vr_wire.specs.Heading.{Heads, is_kind};
ghost use Rattle.vr_wire.specs.private.Heading.{Tells, heading_of};

use crate::cutting::long_number;
use crate::error::WireError;
use crate::writing::VERSION;
use view_store::Cluster;

/// Whether a message, or a part of one, has this kind.
fn is_kind(kind: u8) -> bool
    ensures { result ≡ is_kind kind }
{
    (1 <= kind && kind <= 6) || (9 <= kind && kind <= 13)
}

/// The cluster's number, the kind and the sender that these octets tell; none where no frame begins so.
fn heading_of(first: &[u8]) -> Option<(u64, (u8, u8))>
    requires { length first.now ≡ 9 }
    ensures { result ≡ heading_of first.now }
{
    let cluster = long_number(&first[1..7]);
    if first[0] == VERSION && 0 < cluster && is_kind(first[7]) {
        Some((cluster, (first[7], first[8])))
    } else {
        None
    }
}

/// The same; the octets are those of what they tell.
fn told(first: &[u8]) -> Option<(u64, (u8, u8))>
    requires { length first.now ≡ 9 }
    ensures told { result ≡ heading_of first.now }
    ensures says { Tells result first.now }
{
    heading_of(first)
}

/// The kind and the sender of a frame of this cluster whose first octets behind its length are these: the version, the
/// cluster's number, the kind, the sender. It takes no memory. E20 only where no frame of any cluster begins so, E24
/// only where none of this cluster does.
pub fn heading(first: [u8; 9], cluster: Cluster) -> Result<(u8, u8), WireError>
    ensures { Heads cluster first result }
{
    match told(&first) {
        None => Err(WireError::BadFrame),
        Some((other, said)) => {
            if other == cluster.number() {
                Ok(said)
            } else {
                Err(WireError::ForeignFrame)
            }
        }
    }
}
