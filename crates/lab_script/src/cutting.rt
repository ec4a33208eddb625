// Numbers at the front of a line. What that text writes isn't here.

ghost use Rattle.std.specs.Prelude.{◌≡◌, MatchOption};
ghost use Rattle.lab_script.specs.Lines as lines;
ghost use Rattle.lab_script.specs.private.LineKinds.{kind_view};
ghost use Rattle.lab_script.specs.Words as words;

use crate::cuts::cut_text;
use crate::kinds::is_word;
use filter_text::number_of_digits;

/// What a line is by its first word, and what stands behind that and one space.
#[derive(Clone, Copy)]
pub enum LineKind<'a> {
    Request(&'a [u8]),
    Search(&'a [u8]),
    /// Any other line.
    Plain,
}

/// A number, and what stands behind it and one space.
#[derive(Clone, Copy)]
struct Numbered<'a> {
    number: u64,
    rest: &'a [u8],
}

/// The parts of a request: three numbers, and the text of an update.
#[derive(Clone, Copy)]
pub struct RequestParts<'a> {
    pub replica: u64,
    pub client: u64,
    pub number: u64,
    pub text: &'a [u8],
}

/// The parts of a search: two numbers, and the text of a search.
#[derive(Clone, Copy)]
pub struct SearchParts<'a> {
    pub replica: u64,
    pub named: u64,
    pub text: &'a [u8],
}

/// The kind of a line with this first word.
fn kind_by<'a>(word: &[u8], rest: &'a [u8]) -> LineKind<'a>
    ensures { kind_view result ≡ lines.kind_cut (Some (record { front = word.now; behind = rest.now })) }
{
    if is_word(word, b"request") {
        LineKind::Request(rest)
    } else if is_word(word, b"search") {
        LineKind::Search(rest)
    } else {
        LineKind::Plain
    }
}

/// The kind of a line.
pub fn kind_of(line: &[u8]) -> LineKind<'_>
    ensures { kind_view result ≡ lines.kind_of line.now }
{
    match cut_text(b' ', line) {
        Some(parts) => kind_by(parts.front, parts.behind),
        None => LineKind::Plain,
    }
}

/// The number of a text's first word, and the rest.
fn number_then(text: &[u8]) -> Option<Numbered<'_>>
    ensures { MatchOption result (words.number_then text.now ≡ None)
        (λ n. words.number_then text.now ≡ Some (record { number = n.number; rest = n.rest.now })) }
{
    match cut_text(b' ', text) {
        Some(parts) => match number_of_digits(parts.front) {
            Some(number) => Some(Numbered {
                number,
                rest: parts.behind,
            }),
            None => None,
        },
        None => None,
    }
}

/// The parts of a search behind its word.
pub fn search_parts(rest: &[u8]) -> Option<SearchParts<'_>>
    ensures { MatchOption result (lines.search_parts rest.now ≡ None)
        (λ p. lines.search_parts rest.now ≡ Some (record { replica = p.replica; named = p.named; text = p.text.now })) }
{
    let Some(replica) = number_then(rest) else {
        return None;
    };
    let Some(named) = number_then(replica.rest) else {
        return None;
    };
    Some(SearchParts {
        replica: replica.number,
        named: named.number,
        text: named.rest,
    })
}

/// The parts of a request behind its word.
pub fn request_parts(rest: &[u8]) -> Option<RequestParts<'_>>
    ensures { MatchOption result (lines.request_parts rest.now ≡ None)
        (λ p. lines.request_parts rest.now ≡ Some (record {
          replica = p.replica;
          client = p.client;
          number =
              p.number;
          text = p.text.now;
        })) }
{
    let Some(replica) = number_then(rest) else {
        return None;
    };
    let Some(client) = number_then(replica.rest) else {
        return None;
    };
    let Some(number) = number_then(client.rest) else {
        return None;
    };
    Some(RequestParts {
        replica: replica.number,
        client: client.number,
        number: number.number,
        text: number.rest,
    })
}
