//! The parts of a position, lawful or not.
ghost use Rattle.std.specs.Prelude.{◌≡◌, slice_index};
ghost use Rattle.board.specs.Piece.{holds as stands_on};
ghost use Rattle.rules.specs.Lawful.{ahead as one_ahead};

use board::piece::{Kind, code};
use board::side::Side;
use board::square::Square;
use rules::home::ahead;
use rules::rights::Rights;

/// What a FEN text says: 64 codes, the side to move, the castling rights, the en passant square, the halfmove clock and the move number.
#[derive(Clone, Copy, PartialEq, Eq, Debug)]
pub struct Setup {
    pub codes: [u8; 64],
    pub side: Side,
    pub rights: Rights,
    pub en_passant: Option<Square>,
    pub clock: u16,
    pub number: u16,
}

impl Setup {
    /// The code on a square.
    pub fn code_on(&self, square: Square) -> u8
        ensures { result ≡ slice_index self.now.codes square.number }
    {
        self.codes[square.index()]
    }

    /// The code one rank ahead of a side's man on a square, 0 off the board.
    pub fn code_ahead(&self, side: Side, square: Square) -> u8
        ensures { result ≡ slice_index self.now.codes (one_ahead side square.number) }
    {
        self.codes
            .get(ahead(side, square.number()))
            .copied()
            .unwrap_or(0)
    }

    /// Whether a side's piece of a kind stands on a square.
    pub fn holds(&self, side: Side, kind: Kind, square: Square) -> bool
        ensures { result ≡ stands_on self.now.codes side kind square.number }
    {
        self.code_on(square) == code(side, kind)
    }
}
