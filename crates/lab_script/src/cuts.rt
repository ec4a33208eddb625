//! Cuts a text in two, at the first of an octet or of a colon and a space.

ghost use Rattle.std.specs.Prelude.{◌≡◌, nat_eq, position, drop, false, true, MatchOption};
ghost use Rattle.std.specs.Str.{is_utf8};
ghost use Rattle.lab_script.specs.Cuts as cuts;

/// A text cut in two, without what it was cut at.
#[derive(Clone, Copy)]
pub struct Cut<'a> {
    pub front: &'a [u8],
    pub behind: &'a [u8],
}

/// Where the first of this octet stands.
fn place_of(octet: u8, text: &[u8]) -> Option<usize>
    ensures { result ≡ position (nat_eq octet) text.now }
{
    text.iter().position(|other| octet == *other)
}

/// The text cut at the first of this octet; none, where it has none.
pub fn cut_text(octet: u8, text: &[u8]) -> Option<Cut<'_>>
    ensures { MatchOption result (cuts.cut octet text.now ≡ None)
        (λ k. cuts.cut octet text.now ≡ Some (record { front = k.front.now; behind = k.behind.now })) }
{
    match place_of(octet, text) {
        Some(at) => Some(Cut {
            front: &text[..at],
            behind: &text[at + 1..],
        }),
        None => None,
    }
}

/// What stands behind a colon and a space at the front; none, where they don't stand there.
fn value_of(text: &[u8]) -> Option<&[u8]>
    ensures { MatchOption result (cuts.begins_value text.now ≡ false) (λ v. (cuts.begins_value text.now ≡ true)
        × (v.now ≡ drop 2 text.now)) }
{
    match text {
        [b':', b' ', rest @ ..] => Some(rest),
        _ => None,
    }
}

#[tactic(auto, using(crate::proofs::Pairs::pair_more, crate::proofs::Pairs::pair_here, crate::proofs::Pairs::pair_none, crate::proofs::Pairs::over_nothing))]
/// The text cut at its first colon with a space behind it; none, where it has none.
pub fn cut_pair(text: &[u8]) -> Option<Cut<'_>>
    ensures { MatchOption result (cuts.cut_pair text.now ≡ None)
        (λ k. cuts.cut_pair text.now ≡ Some (record { front = k.front.now; behind = k.behind.now })) }
{
    for at in 0..text.len() {
        match value_of(&text[at..]) {
            Some(behind) => {
                return Some(Cut {
                    front: &text[..at],
                    behind,
                });
            }
            None => {}
        }
    }
    None
}

/// What stands behind the spaces at the front.
pub fn behind_spaces(text: &[u8]) -> &[u8]
    ensures { result.now ≡ cuts.behind_spaces text.now }
{
    let mut rest = text;
    while let [b' ', more @ ..] = rest {
        rest = more;
    }
    rest
}

/// The octets as text; none, where they are no UTF-8.
pub fn text_of(octets: &[u8]) -> Option<&str>
    ensures { MatchOption result (is_utf8 octets.now ≡ false) (λ t. (is_utf8 octets.now ≡ true)
        × (t.now ≡ octets.now)) }
{
    match std::str::from_utf8(octets) {
        Ok(text) => Some(text),
        Err(_) => None,
    }
}
