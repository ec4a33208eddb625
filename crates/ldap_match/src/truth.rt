//! Three-valued truth.

ghost use Rattle.std.specs.Prelude.{◌≡◌};
ghost use Rattle.ldap_match.specs.Truth.{truth_and, truth_or, truth_not, IsCommutative, IsAssociative};

/// What a filter says of an entry (RFC 4511 4.5.1.7).
#[derive(Clone, Copy, Debug, PartialEq, Eq)]
pub enum Truth {
    True,
    False,
    Undefined,
}

impl Truth {
    /// False if one is False, True if both are True, else Undefined.
    pub fn and(self, other: Truth) -> Truth
        ensures { result ≡ truth_and self other }
    {
        match (self, other) {
            (Truth::False, _) | (_, Truth::False) => Truth::False,
            (Truth::True, Truth::True) => Truth::True,
            _ => Truth::Undefined,
        }
    }

    /// True if one is True, False if both are False, else Undefined.
    pub fn or(self, other: Truth) -> Truth
        ensures { result ≡ truth_or self other }
    {
        match (self, other) {
            (Truth::True, _) | (_, Truth::True) => Truth::True,
            (Truth::False, Truth::False) => Truth::False,
            _ => Truth::Undefined,
        }
    }

    /// Swaps True and False.
    pub fn not(self) -> Truth
        ensures { result ≡ truth_not self }
    {
        match self {
            Truth::True => Truth::False,
            Truth::False => Truth::True,
            Truth::Undefined => Truth::Undefined,
        }
    }
}

/// The laws of three-valued truth.
pub fn laws()
    ensures and_commutes { IsCommutative truth_and }
    ensures or_commutes { IsCommutative truth_or }
    ensures and_associates { IsAssociative truth_and }
    ensures or_associates { IsAssociative truth_or }
    ensures not_and { (a b : Truth) → truth_not (truth_and a b) ≡ truth_or (truth_not a) (truth_not b) }
    ensures not_or { (a b : Truth) → truth_not (truth_or a b) ≡ truth_and (truth_not a) (truth_not b) }
    ensures not_not { (a : Truth) → truth_not (truth_not a) ≡ a }
{}
