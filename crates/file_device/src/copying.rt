//! Copies octets out of pieces.
ghost use Rattle.std.specs.Prelude.{◌≡◌, ◌+◌, ◌-◌, ◌≤◌, ◌++◌, IsTrue, length, min, take, drop};
ghost use Rattle.file_device.specs.private.Pieces.{octets_in};

/// Copies octets from a place on into the buffer behind those that are done, as many as there are or find room; how
/// many.
fn copy_behind(octets: &[u8], from: usize, buffer: &mut [u8], done: usize) -> usize
    requires from { from ≤ length octets.now }
    requires done { done ≤ length buffer.old }
    ensures count { result ≡ min (length octets.now - from) (length buffer.old - done) }
    ensures long { length buffer.new ≡ length buffer.old }
    ensures octets { take (done + result) buffer.new ≡ take done buffer.old ++ take result (drop from octets.now) }
{
    let count = (octets.len() - from).min(buffer.len() - done);
    buffer[done..done + count].copy_from_slice(&octets[from..from + count]);
    count
}

/// Fills the buffer from pieces, from a place on; whether there are as many octets.
pub fn copy_out(pieces: &[Vec<u8>], start: usize, buffer: &mut [u8]) -> bool
    ensures octets { IsTrue result → buffer.new ≡ take (length buffer.old) (drop start (octets_in pieces.now)) }
    ensures whole { start + length buffer.old ≤ length (octets_in pieces.now) → IsTrue result }
{
    let mut skip = start;
    let mut done = 0;
    for piece in pieces {
        let from = skip.min(piece.len());
        skip -= from;
        done += copy_behind(piece, from, buffer, done);
        if done == buffer.len() {
            return true;
        }
    }
    done == buffer.len()
}
