//! Writing the fields of FEN, each behind what is written of the line.
ghost use Rattle.std.specs.Prelude.{◌≡◌, ◌+◌, ◌<◌, ◌≤◌, ◌++◌, length};
ghost use Rattle.std.specs.Option.{option_map};
ghost use Rattle.arrayvec.specs.ArrayVec.{array_vec_len};
ghost use Rattle.laws.specs.Setup.{parts, square_number};
ghost use Rattle.notation.specs.Fields.{gap_text, rank_text, ranks_text, side_letter as letter_of_side, right_text, rights_text, en_passant_text};
ghost use Rattle.notation.specs.Fen.{fen as fen_of};

use crate::decimal::Digits;
use crate::fen::placement::rank_end;
use arrayvec::ArrayVec;
use board::piece;
use board::side::Side;
use board::square::Square;
use laws::setup::Setup;
use rules::rights::Rights;

// A piece of text behind what is written.
fn append<const N: usize>(text: &mut ArrayVec<u8, N>, piece: &[u8])
    requires { array_vec_len text.old + length piece.now ≤ N }
    ensures items { text.new.items ≡ text.old.items ++ piece.now }
    ensures len { array_vec_len text.new ≡ array_vec_len text.old + length piece.now }
{
    text.try_extend_from_slice(piece).unwrap();
}

// A digit for so many empty squares in a row, if there are any.
fn gap(text: &mut ArrayVec<u8, 124>, empty: u8)
    requires { array_vec_len text.old + empty ≤ 124 }
    ensures items { text.new.items ≡ text.old.items ++ gap_text empty }
    ensures len { array_vec_len text.new ≤ array_vec_len text.old + empty }
{
    if empty > 0 {
        text.push(b'0' + empty);
    }
}

// The squares of a rank.
fn rank(text: &mut ArrayVec<u8, 124>, squares: &[u8; 8])
    requires { array_vec_len text.old + 8 ≤ 124 }
    ensures items { text.new.items ≡ text.old.items ++ rank_text 0 squares.now }
    ensures len { array_vec_len text.new ≤ array_vec_len text.old + 8 }
{
    let mut empty = 0;
    for code in squares {
        if *code == 0 {
            empty += 1;
        } else {
            gap(text, empty);
            text.push(piece::letter(*code));
            empty = 0;
        }
    }
    gap(text, empty);
}

// The piece placement and its space.
fn placement(text: &mut ArrayVec<u8, 124>, codes: &[u8; 64])
    requires { array_vec_len text.old + 72 ≤ 124 }
    ensures items { text.new.items ≡ text.old.items ++ ranks_text 8 codes.now }
    ensures len { array_vec_len text.new ≤ array_vec_len text.old + 72 }
{
    let (ranks, _) = codes.as_chunks::<8>();
    for (row, squares) in ranks.iter().enumerate().rev() {
        rank(text, squares);
        text.push(rank_end(row));
    }
}

// The letter of a side in FEN, which is not how a side is printed elsewhere: so not Display.
fn side_letter(side: Side) -> u8
    ensures { result ≡ letter_of_side side }
{
    match side {
        Side::White => b'w',
        Side::Black => b'b',
    }
}

// The letter of a right that stands.
fn right(text: &mut ArrayVec<u8, 124>, letter: u8, stands: bool)
    requires { array_vec_len text.old < 124 }
    ensures items { text.new.items ≡ text.old.items ++ right_text letter stands }
    ensures len { array_vec_len text.new ≤ array_vec_len text.old + 1 }
{
    if stands {
        text.push(letter);
    }
}

// The castling rights, or the hyphen for none.
fn rights(text: &mut ArrayVec<u8, 124>, rights: Rights)
    requires { array_vec_len text.old + 4 ≤ 124 }
    ensures items { text.new.items ≡ text.old.items ++ rights_text rights }
    ensures len { array_vec_len text.new ≤ array_vec_len text.old + 4 }
{
    let front = text.len();
    right(text, b'K', rights.white.kingside);
    right(text, b'Q', rights.white.queenside);
    right(text, b'k', rights.black.kingside);
    right(text, b'q', rights.black.queenside);
    if text.len() == front {
        text.push(b'-');
    }
}

// The name of the en passant square, or the hyphen for none.
fn en_passant(text: &mut ArrayVec<u8, 124>, square: Option<Square>)
    requires { array_vec_len text.old + 2 ≤ 124 }
    ensures items { text.new.items ≡ text.old.items ++ en_passant_text (option_map square_number square) }
    ensures len { array_vec_len text.new ≤ array_vec_len text.old + 2 }
{
    match square {
        None => text.push(b'-'),
        Some(square) => {
            text.push(b'a' + square.file());
            text.push(b'1' + square.rank());
        }
    }
}

/// The FEN of these parts, in a text with room for every FEN.
pub(crate) fn line(setup: &Setup) -> ArrayVec<u8, 124>
    ensures { result.items ≡ fen_of (parts setup.now) }
{
    let mut line = ArrayVec::new();
    placement(&mut line, &setup.codes);
    line.push(side_letter(setup.side));
    line.push(b' ');
    rights(&mut line, setup.rights);
    line.push(b' ');
    en_passant(&mut line, setup.en_passant);
    line.push(b' ');
    append(&mut line, Digits::of(u64::from(setup.clock)).text());
    line.push(b' ');
    append(&mut line, Digits::of(u64::from(setup.number)).text());
    line
}
