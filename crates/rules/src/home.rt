//! The home of a side: where its king and rooks start, and the ranks of its pawns.
ghost use Rattle.std.specs.Prelude.{◌≡◌, ◌+◌, ◌≤◌};
ghost use Rattle.rules.specs.Lawful.{ahead as one_ahead, king_home, kingside_home, queenside_home, en_passant_rank};
ghost use Rattle.rules.specs.Legal.{pawn_home, last_rank};

use board::side::Side;
use board::square::Square;

/// The squares from which a side castles, and the ranks, counted from 0, that count for its pawns.
#[derive(Clone, Copy, PartialEq, Eq, Debug)]
pub struct Home {
    pub king: Square,
    pub kingside_rook: Square,
    pub queenside_rook: Square,
    /// On which its pawns start.
    pub pawn_rank: u8,
    /// On which its pawns promote.
    pub last_rank: u8,
    /// On which its pawns take en passant.
    pub en_passant_rank: u8,
}

impl Home {
    /// The home of a side.
    pub fn of(side: Side) -> Home
        ensures king { result.king.number ≡ king_home side }
        ensures kingside_rook { result.kingside_rook.number ≡ kingside_home side }
        ensures queenside_rook { result.queenside_rook.number ≡ queenside_home side }
        ensures pawn_rank { result.pawn_rank ≡ pawn_home side }
        ensures last_rank { result.last_rank ≡ last_rank side }
        ensures en_passant_rank { result.en_passant_rank ≡ en_passant_rank side }

        // There is room beside the king to castle.
        ensures least { 4 ≤ result.king.number }
        ensures most { result.king.number ≤ 60 }
    {
        match side {
            Side::White => Home {
                king: Square::E1,
                kingside_rook: Square::H1,
                queenside_rook: Square::A1,
                pawn_rank: 1,
                last_rank: 7,
                en_passant_rank: 5,
            },
            Side::Black => Home {
                king: Square::E8,
                kingside_rook: Square::H8,
                queenside_rook: Square::A8,
                pawn_rank: 6,
                last_rank: 0,
                en_passant_rank: 2,
            },
        }
    }
}

/// The number of the square one rank ahead of a side's man: above 63 beyond rank 8, and 0 beyond rank 1.
// A number and not an Option of a square: the rules are said of numbers, and look at what stands there, which off the board is nothing.
pub fn ahead(side: Side, square: u8) -> usize
    ensures square { result ≡ one_ahead side square }
    ensures most { result ≤ square + 8 }
{
    match side {
        Side::White => usize::from(square) + 8,
        Side::Black => usize::from(square.saturating_sub(8)),
    }
}
