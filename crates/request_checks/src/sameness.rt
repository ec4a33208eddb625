//! Compares octets that a client must not guess.
ghost use Rattle.std.specs.Prelude.{◌≡◌};
ghost use Rattle.std.specs.Str.{bytes_eq};

/// Whether octets are the same. All of them are compared: the time tells how many there are, and not where the first
/// differ.
pub fn is_same(one: &[u8], other: &[u8]) -> bool
    ensures { result ≡ bytes_eq one.now other.now }
{
    let mut is_so_far = true;
    let (mut left, mut right) = (one, other);
    while let ([a, rest @ ..], [b, others @ ..]) = (left, right) {
        is_so_far &= *a == *b;
        left = rest;
        right = others;
    }
    is_so_far & left.is_empty() & right.is_empty()
}
