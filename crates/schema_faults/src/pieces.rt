//! A description between its outer parentheses: where it is cut by spaces, and the first octet that has no place in it
//! (RFC 4512 1.4).
ghost use Rattle.std.specs.Prelude.{◌≡◌, ◌++◌, ◌<◌, IfOk, IfSome, OnOk, length, map};
ghost use Rattle.schema_faults.specs.Pieces.{bare_step, quoted_step, escape_step, half_step, step, stop_in, is_outside, is_break, next_of, piece_of, pieces_of};

use std::alloc::{AllocError, Global};

/// Where a reader is: outside a list or in it, in quotes there, and behind a backslash there. The flag tells that a
/// list is open.
#[derive(Clone, Copy)]
pub enum Scan {
    Bare { in_list: bool },
    Quoted { in_list: bool },
    Escape { in_list: bool },
    Half { in_list: bool, first: u8 },
}

/// The start of a scan.
const START: Scan = Scan::Bare { in_list: false };

/// Behind an octet outside quotes.
fn bare_step(in_list: bool, octet: u8) -> Option<Scan>
    ensures { result ≡ bare_step in_list octet }
{
    match octet {
        b'(' if in_list => None,
        b')' if !in_list => None,
        b'(' => Some(Scan::Bare { in_list: true }),
        b')' => Some(Scan::Bare { in_list: false }),
        b'\'' => Some(Scan::Quoted { in_list }),
        _ => Some(Scan::Bare { in_list }),
    }
}

/// Behind an octet in quotes.
fn quoted_step(in_list: bool, octet: u8) -> Option<Scan>
    ensures { result ≡ quoted_step in_list octet }
{
    match octet {
        b'\'' => Some(Scan::Bare { in_list }),
        b'\\' => Some(Scan::Escape { in_list }),
        _ => Some(Scan::Quoted { in_list }),
    }
}

/// Behind an octet that follows a backslash.
fn escape_step(in_list: bool, octet: u8) -> Option<Scan>
    ensures { result ≡ escape_step in_list octet }
{
    match octet {
        b'2' | b'5' => Some(Scan::Half {
            in_list,
            first: octet,
        }),
        _ => None,
    }
}

/// Behind the second digit.
fn half_step(in_list: bool, first: u8, octet: u8) -> Option<Scan>
    ensures { result ≡ half_step in_list first octet }
{
    match (first, octet) {
        (b'2', b'7') | (b'5', b'c' | b'C') => Some(Scan::Quoted { in_list }),
        _ => None,
    }
}

/// Behind a further octet; none, where it may not come.
fn step(scan: Scan, octet: u8) -> Option<Scan>
    ensures { result ≡ step scan octet }
{
    match scan {
        Scan::Bare { in_list } => bare_step(in_list, octet),
        Scan::Quoted { in_list } => quoted_step(in_list, octet),
        Scan::Escape { in_list } => escape_step(in_list, octet),
        Scan::Half { in_list, first } => half_step(in_list, first, octet),
    }
}

/// The first octet that may not come, by its index, and where the reader was there; or where it was at the end.
#[derive(Clone, Copy)]
pub struct Stop {
    pub index: Option<usize>,
    pub scan: Scan,
}

/// Where a reader of these octets stops.
pub fn stop_in(octets: &[u8]) -> Stop
    ensures stop { result ≡ stop_in octets.now }
    ensures within { IfSome result.index (λ index. index < length octets.now) }
{
    let mut scan = START;
    for (index, octet) in octets.iter().enumerate() {
        match step(scan, *octet) {
            Some(next) => scan = next,
            None => {
                return Stop {
                    index: Some(index),
                    scan,
                };
            }
        }
    }
    Stop { index: None, scan }
}

/// Whether a reader is outside lists and quotes.
pub fn is_outside(scan: Scan) -> bool
    ensures { result ≡ is_outside scan }
{
    match scan {
        Scan::Bare { in_list } => !in_list,
        Scan::Quoted { .. } | Scan::Escape { .. } | Scan::Half { .. } => false,
    }
}

/// Whether an octet ends a piece: a space outside lists and quotes.
fn is_break(scan: Scan, octet: u8) -> bool
    ensures { result ≡ is_break scan octet }
{
    is_outside(scan) && octet == b' '
}

/// Behind a further octet, or where the reader was before one that may not come.
fn next_of(scan: Scan, octet: u8) -> Scan
    ensures { result ≡ next_of scan octet }
{
    match step(scan, octet) {
        Some(next) => next,
        None => scan,
    }
}

/// Adds a piece that has octets.
fn push_piece<'a>(pieces: &mut Vec<&'a [u8]>, piece: &'a [u8]) -> Result<(), AllocError>
    ensures { OnOk result (map (λ x. x.now) pieces.new.items ≡ map (λ x. x.now) pieces.old.items ++ piece_of
        piece.now) }
{
    match piece {
        [] => Ok(()),
        [_, ..] => {
            pieces.push(piece)?;
            Ok(())
        }
    }
}

/// The parts between spaces that are outside lists and quotes.
pub fn pieces_of(alloc: Global, octets: &[u8]) -> Result<Vec<&[u8]>, AllocError>
    ensures { IfOk result (λ v. map (λ x. x.now) v.items ≡ pieces_of octets.now) }
{
    let mut pieces = Vec::new(alloc);
    let mut scan = START;
    let mut start = 0;
    for (index, octet) in octets.iter().enumerate() {
        if is_break(scan, *octet) {
            push_piece(&mut pieces, &octets[start..index])?;
            start = index + 1;
        }
        scan = next_of(scan, *octet);
    }
    push_piece(&mut pieces, &octets[start..])?;
    Ok(pieces)
}
