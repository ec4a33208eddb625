//! Decides how long a client may let an answer wait.
ghost use Rattle.std.specs.Prelude.{◌≡◌, ◌+◌, ◌/◌, min};

/// For each so many octets of an answer that a client has taken it may let the rest wait once more for the same time.
const STRETCH: u64 = 1_048_576;

/// How many times a server's patience a client may let an answer wait of which it has taken so many octets: once, and
/// once more for each MiB; 4294967295 stands for any greater number too.
pub fn stretch(octets: u64) -> u32
    ensures { result ≡ min (octets / 1048576 + 1) 4294967295 }
{
    let times = (octets / STRETCH + 1).min(4_294_967_295);
    times as u32
}
