// Searches rising lists of numbers.

ghost use Rattle.std.specs.Prelude.{◌≡◌};
ghost use Rattle.dir_index.specs.Postings.{has_number, IsRising};

/// Whether a number is in a rising list. A binary search.
pub fn has(numbers: &[u64], number: u64) -> bool
    requires { IsRising numbers.now }
    ensures { result ≡ has_number number numbers.now }
{
    match numbers.binary_search(&number) {
        Ok(_) => true,
        Err(_) => false,
    }
}
