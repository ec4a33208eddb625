// The values of entries. A trait.

ghost use Rattle.std.specs.Prelude.{◌≡◌, ℕ, ◌+◌, ◌^◌, ◌<◌};
ghost use Rattle.dir_index.specs.ldap_match.declared.truth.Truth.{Truth};

use dir_index::Truth;

/// The values of a filter on numbered entries. Each look at an entry is counted.
pub trait Values {
    ghost value_at: { Self → ℕ → Truth };

    ghost looks: { Self → ℕ };

    /// Tells of numbers whose entries will be found, so that these can be read ahead.
    fn expect(&mut self, numbers: &[u64])
        ensures { self.new ≡ self.old };

    /// The value on the entry of a number. It changes nothing but the count.
    fn value(&mut self, number: u64) -> Truth
        requires { looks self.old + 1 < 2 ^ 64 }
        ensures value { result ≡ value_at self.old number }
        ensures same { (n : ℕ) → value_at self.new n ≡ value_at self.old n }
        ensures counted { looks self.new ≡ looks self.old + 1 };
}
