//! Finds what is before the first colon of a line, or before its first space.
ghost use Rattle.std.specs.Prelude.{◌≡◌, nat_eq};
ghost use Rattle.std.specs.List.{position};
ghost use Rattle.text_faults.specs.Fronts.{front_of};
ghost use Rattle.text_faults.specs.Scripts.{first_word};

/// Where an octet is first.
pub fn place_of(octets: &[u8], wanted: u8) -> Option<usize>
    ensures { result ≡ position (λ octet. nat_eq octet wanted) octets.now }
{
    octets.iter().position(|octet| *octet == wanted)
}

/// Where the first colon of a line is.
pub fn colon(line: &[u8]) -> Option<usize>
    ensures { result ≡ position (λ octet. nat_eq octet 58) line.now }
{
    place_of(line, b':')
}

/// What is before a line's first colon, or all of it.
pub fn front_of(line: &[u8]) -> &[u8]
    ensures { result.now ≡ front_of line.now }
{
    match colon(line) {
        None => line,
        Some(at) => &line[..at],
    }
}

/// What is before the first space of a line, or all of it.
pub fn first_word(line: &[u8]) -> &[u8]
    ensures { result.now ≡ first_word line.now }
{
    match place_of(line, b' ') {
        Some(at) => &line[..at],
        None => line,
    }
}
