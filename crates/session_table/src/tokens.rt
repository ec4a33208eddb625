//! Makes the tokens by which the poll reports sockets: a place, and the end of its session's number.
ghost use Rattle.std.specs.Prelude.{◌≡◌, ◌<◌, ◌%◌, ◌/◌};
ghost use Rattle.session_table.specs.Tokens.{token_of};

/// How many places tokens tell apart. Above stands the rest of a session's number by as many, since its place may be
/// another session's by then.
const PLACES: u64 = 4_294_967_296;

/// What the poll reports the socket of a session by.
pub fn token_of(place: usize, number: u64) -> usize
    ensures token { result ≡ token_of place number }
    ensures place { place < 4294967296 → result % 4294967296 ≡ place }
    ensures number { place < 4294967296 → result / 4294967296 ≡ number % 4294967296 }
{
    let above = number % PLACES * PLACES;
    place % PLACES as usize + above as usize
}

/// The place in a token.
pub fn place_in(token: usize) -> usize
    ensures { result ≡ token % 4294967296 }
{
    token % PLACES as usize
}
