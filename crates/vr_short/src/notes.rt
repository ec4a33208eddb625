//! Notes: a number that goes with the next message of its sender on one connection.
ghost use Rattle.std.specs.Prelude.{◌≡◌, ◌++◌};
ghost use Rattle.std.specs.Int.{w64, from_be_bytes};
ghost use Rattle.vr_short.specs.Notes.{BeginsNote, note_heading, note_octets};
ghost use Rattle.vr_wire.specs.Frames.{number};

use vr_wire::Cluster;

/// The version of frames.
const VERSION: u8 = 2;

/// The kind of a note, which no message has, no part of one, and no greeting.
const KIND: u8 = 15;

/// How many octets of a note stand behind its first 13.
pub const NOTE_REST: u32 = 8;

/// The first octets of a note: how many follow the first four, the version, the cluster, the kind and the sender.
fn heading(cluster: Cluster, sender: u8) -> [u8; 13]
    ensures { result ≡ note_heading cluster sender }
{
    let [_, _, a, b, c, d, e, f] = cluster.number().to_be_bytes();
    [0, 0, 0, 17, VERSION, a, b, c, d, e, f, KIND, sender]
}

/// The note of this number.
pub fn note(cluster: Cluster, sender: u8, number: u64) -> [u8; 21]
    ensures { result ≡ note_octets cluster sender number }
{
    let [a, b, c, d, e, f, g, h, i, j, k, l, m] = heading(cluster, sender);
    let [s, t, u, v, w, x, y, z] = number.to_be_bytes();
    [
        a, b, c, d, e, f, g, h, i, j, k, l, m, s, t, u, v, w, x, y, z,
    ]
}

/// Whose note of this cluster begins so, if one does.
pub fn note_sender(first: [u8; 13], cluster: Cluster) -> Option<u8>
    ensures { BeginsNote cluster first result }
{
    let sender = first[12];
    if first == heading(cluster, sender) {
        Some(sender)
    } else {
        None
    }
}

/// The number of a note, whose last octets these are.
pub fn note_number(rest: [u8; 8]) -> u64
    ensures { result ≡ from_be_bytes w64 rest }
{
    u64::from_be_bytes(rest)
}
