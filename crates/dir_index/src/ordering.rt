// The order of postings, by which they are keys of a map. It takes no memory.

ghost use Rattle.std.specs.Prelude.{◌≡◌, Some, refl};
ghost use Rattle.std.specs.Cmp.{partial_equiv_from_equiv, partial_order_from_agreeing_total};
ghost use Rattle.dir_index.specs.Ordered.{type_of, rank_of, octets_of, posting_order, is_same_posting};
ghost use Rattle.dir_index.specs.OrderLaws.{posting_equiv, posting_total, posting_ties};

use crate::posting::Posting;
use std::cmp::Ordering;

/// The number of the type.
pub fn type_number(posting: &Posting) -> usize
    ensures { result ≡ type_of posting.now }
{
    match posting {
        Posting::Present(type_id) => type_id.number(),
        Posting::Several(type_id) => type_id.number(),
        Posting::Equal(type_id, _) => type_id.number(),
        Posting::Run(type_id, _) => type_id.number(),
    }
}

/// The place of the kind of index among the kinds.
pub fn rank(posting: &Posting) -> u8
    ensures { result ≡ rank_of posting.now }
{
    match posting {
        Posting::Present(_) => 0,
        Posting::Several(_) => 1,
        Posting::Equal(_, _) => 2,
        Posting::Run(_, _) => 3,
    }
}

/// The octets that a value is asked for.
pub fn octets(posting: &Posting) -> &[u8]
    ensures { result.now ≡ octets_of posting.now }
{
    match posting {
        Posting::Present(_) => &[],
        Posting::Several(_) => &[],
        Posting::Equal(_, key) => key.as_octets(),
        Posting::Run(_, run) => run,
    }
}

impl PartialEq for Posting {
    ghost eq = { is_same_posting };

    ghost laws = { partial_equiv_from_equiv posting_equiv };

    fn eq(&self, other: &Posting) -> bool {
        type_number(self) == type_number(other)
            && (rank(self) == rank(other) && octets(self) == octets(other))
    }
}

impl Eq for Posting {
    ghost laws = { posting_equiv };
}

impl PartialOrd for Posting {
    ghost partial_cmp = { λ x y. Some (posting_order x y) };

    ghost laws = { partial_order_from_agreeing_total posting_order posting_total (λ x y. refl) posting_ties };

    fn partial_cmp(&self, other: &Posting) -> Option<Ordering> {
        Some(self.cmp(other))
    }
}

impl Ord for Posting {
    ghost cmp = { posting_order };

    ghost total = { posting_total };

    ghost matches_partial_cmp = { λ x y. refl };

    ghost matches_eq = { posting_ties };

    fn cmp(&self, other: &Posting) -> Ordering {
        match type_number(self).cmp(&type_number(other)) {
            Ordering::Equal => match rank(self).cmp(&rank(other)) {
                Ordering::Equal => octets(self).cmp(octets(other)),
                order => order,
            },
            order => order,
        }
    }
}
