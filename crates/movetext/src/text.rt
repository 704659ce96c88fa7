//! What a move text says.
use board::piece::Kind;
use board::square::Square;
use moves::action::Promotion;
use rules::rights::Wing;

/// The move of a piece: its kind, the origin file and rank where they are given, both counted from 0, its target and promotion.
#[derive(Clone, Copy, PartialEq, Eq, Debug)]
pub struct PieceText {
    pub kind: Kind,
    pub file: Option<u8>,
    pub rank: Option<u8>,
    pub to: Square,
    pub promotion: Option<Promotion>,
}

/// What a move text says: castling, or the move of a piece.
#[derive(Clone, Copy, PartialEq, Eq, Debug)]
pub enum MoveText {
    Castling(Wing),
    Piece(PieceText),
}
