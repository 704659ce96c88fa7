//! The two sides.
ghost use Rattle.std.specs.Prelude.{◌≡◌};
ghost use Rattle.board.specs.Piece.{other as opponent};

/// White or Black.
#[derive(Clone, Copy, PartialEq, Eq, Debug)]
pub enum Side {
    White,
    Black,
}

impl Side {
    /// The opponent of this side.
    pub fn other(self) -> Side
        ensures { result ≡ opponent self }
    {
        match self {
            Side::White => Side::Black,
            Side::Black => Side::White,
        }
    }
}
