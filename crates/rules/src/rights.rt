//! Castling rights.
ghost use Rattle.std.specs.Prelude.{◌≡◌};
ghost use Rattle.rules.specs.Side.{rights_of};

use board::side::Side;

/// The side of the board to which a king castles.
#[derive(Clone, Copy, PartialEq, Eq, Debug)]
pub enum Wing {
    Kingside,
    Queenside,
}

/// The two castling rights of a side.
#[derive(Clone, Copy, PartialEq, Eq, Debug)]
pub struct Castling {
    pub kingside: bool,
    pub queenside: bool,
}

/// The four castling rights.
#[derive(Clone, Copy, PartialEq, Eq, Debug)]
pub struct Rights {
    pub white: Castling,
    pub black: Castling,
}

impl Rights {
    /// The rights of a side.
    pub fn of(self, side: Side) -> Castling
        ensures { result ≡ rights_of self side }
    {
        match side {
            Side::White => self.white,
            Side::Black => self.black,
        }
    }
}
