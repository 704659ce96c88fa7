//! Pieces as codes and as letters.
//! Code 0 is an empty square; 1 to 6 are the white pawn, knight, bishop, rook, queen and king, 7 to 12 the black.
ghost use Rattle.std.specs.Prelude.{◌≡◌, ◌≤◌};
ghost use Rattle.board.specs.Piece.{number as number_of, code as coded, letter as lettered, code_of_letter};

use crate::side::Side;

/// The kinds of pieces.
#[derive(Clone, Copy, PartialEq, Eq, Debug)]
pub enum Kind {
    Pawn,
    Knight,
    Bishop,
    Rook,
    Queen,
    King,
}

/// The letter of each code: upper case for White, lower case for Black, a period for an empty square.
const LETTERS: [u8; 13] = *b".PNBRQKpnbrqk";

impl Kind {
    /// The number of the kind, which is the code of the white piece.
    // A method and not From, as code and letters here: a call says by its name which number or byte it gives.
    pub fn number(self) -> u8
        ensures number { result ≡ number_of self }
        ensures most { result ≤ 6 }
    {
        match self {
            Kind::Pawn => 1,
            Kind::Knight => 2,
            Kind::Bishop => 3,
            Kind::Rook => 4,
            Kind::Queen => 5,
            Kind::King => 6,
        }
    }
}

/// The code of a side's piece of a kind.
pub fn code(side: Side, kind: Kind) -> u8
    ensures { result ≡ coded side kind }
{
    match side {
        Side::White => kind.number(),
        Side::Black => kind.number() + 6,
    }
}

/// The letter of a code; 0 above 12.
pub fn letter(code: u8) -> u8
    ensures { result ≡ lettered code }
{
    // 0 for no letter and not an Option: this call answers every number, and a board's codes all have a letter.
    if code > 12 {
        0
    } else {
        LETTERS[usize::from(code)]
    }
}

/// The code of the piece that a letter stands for, or none.
pub fn from_letter(byte: u8) -> Option<u8>
    ensures { result ≡ code_of_letter byte }
{
    (1..13u8).find(|&code| letter(code) == byte)
}
