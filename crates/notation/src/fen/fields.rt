//! Reading the fields of FEN behind the piece placement, each with the rest behind it.
ghost use Rattle.std.specs.Prelude.{◌≡◌};
ghost use Rattle.std.specs.Option.{option_map, option_copied};
ghost use Rattle.laws.specs.Setup.{square_number};
ghost use Rattle.notation.specs.Reader.{past as behind_byte, behind, read_as};
ghost use Rattle.notation.specs.Fields.{no_right, read_side, read_right, read_castling, read_rights, read_en_passant};

use board::side::Side;
use board::square::Square;
use rules::rights::{Castling, Rights};

/// The rest behind a byte that must stand in front.
pub(crate) fn past(text: &[u8], byte: u8) -> Option<&[u8]>
    ensures { option_copied result ≡ behind_byte byte text.now }
{
    match text {
        [first, rest @ ..] if *first == byte => Some(rest),
        _ => None,
    }
}

/// A field, with the rest behind the space that must follow it.
pub(crate) fn spaced<T: Copy>(field: Option<(T, &[u8])>) -> Option<(T, &[u8])>
    ensures { read_as (λ v. v) result ≡ behind 32 (read_as (λ v. v) field.entry) }
{
    let (value, rest) = field?;
    Some((value, past(rest, b' ')?))
}

/// The letter of the side to move.
pub(crate) fn side(text: &[u8]) -> Option<(Side, &[u8])>
    ensures { read_as (λ s. s) result ≡ read_side text.now }
{
    match text {
        [b'w', rest @ ..] => Some((Side::White, rest)),
        [b'b', rest @ ..] => Some((Side::Black, rest)),
        _ => None,
    }
}

// Whether a right's letter stands in front.
fn right(text: &[u8], letter: u8) -> (bool, &[u8])
    ensures { (result.0, result.1.now) ≡ read_right letter text.now }
{
    match past(text, letter) {
        Some(rest) => (true, rest),
        None => (false, text),
    }
}

// The castling rights of a side, by its two letters.
fn castling(text: &[u8], king: u8, queen: u8) -> (Castling, &[u8])
    ensures { (result.0, result.1.now) ≡ read_castling king queen text.now }
{
    let (kingside, rest) = right(text, king);
    let (queenside, rest) = right(rest, queen);
    (
        Castling {
            kingside,
            queenside,
        },
        rest,
    )
}

// Whether there is no castling right.
fn none(rights: Rights) -> bool
    ensures { result ≡ no_right rights }
{
    !(rights.white.kingside
        || rights.white.queenside
        || rights.black.kingside
        || rights.black.queenside)
}

/// The castling rights, or the hyphen for none.
pub(crate) fn rights(text: &[u8]) -> Option<(Rights, &[u8])>
    ensures { read_as (λ r. r) result ≡ read_rights text.now }
{
    let (white, rest) = castling(text, b'K', b'Q');
    let (black, rest) = castling(rest, b'k', b'q');
    let rights = Rights { white, black };
    if none(rights) {
        Some((rights, past(rest, b'-')?))
    } else {
        Some((rights, rest))
    }
}

/// The name of the en passant square, or the hyphen for none.
pub(crate) fn en_passant(text: &[u8]) -> Option<(Option<Square>, &[u8])>
    ensures { read_as (option_map square_number) result ≡ read_en_passant text.now }
{
    match text {
        [b'-', rest @ ..] => Some((None, rest)),
        [file, rank, rest @ ..] => Some((Some(Square::named(*file, *rank)?), rest)),
        _ => None,
    }
}
