//! Making positions.
ghost use Rattle.std.specs.Prelude.{◌≡◌};
ghost use Rattle.rules.specs.Parts.{initial_parts};
ghost use Rattle.rules.specs.Lawful.{judged};
ghost use Rattle.laws.specs.Position.{position_parts, made_parts};
ghost use Rattle.laws.specs.Setup.{parts};

use crate::position::Position;
use crate::setup::Setup;
use board::Board;
use board::picture::show;
use board::side::Side;
use rules::breach::Breach;
use rules::rights::{Castling, Rights};

/// The codes of the initial position, from a1 to h8.
const INITIAL_CODES: [u8; 64] = [
    4, 2, 3, 5, 6, 3, 2, 4, 1, 1, 1, 1, 1, 1, 1, 1, 0, 0, 0, 0, 0, 0, 0, 0, 0, 0, 0, 0, 0, 0, 0, 0,
    0, 0, 0, 0, 0, 0, 0, 0, 0, 0, 0, 0, 0, 0, 0, 0, 7, 7, 7, 7, 7, 7, 7, 7, 10, 8, 9, 11, 12, 9, 8,
    10,
];

impl Position {
    /// The position of these parts, or the first law that they break. The board, which is asked for attacks, is left as it was.
    pub fn new<B: Board>(board: &mut B, setup: Setup) -> Result<Position, Breach>
        ensures answer { made_parts result ≡ judged (parts setup) }
        ensures list { B.codes board.new ≡ B.codes board.old }
    {
        setup.obey(board)?;
        Ok(Position { setup })
    }

    /// Shows the position on a board.
    pub fn show<B: Board>(&self, board: &mut B)
        ensures { B.codes board.new ≡ (position_parts self.now).codes }
    {
        show(board, &self.setup.codes);
    }

    /// The initial position.
    pub fn initial() -> Position
        ensures { position_parts result ≡ initial_parts }
    {
        let both = Castling {
            kingside: true,
            queenside: true,
        };
        let setup = Setup {
            codes: INITIAL_CODES,
            side: Side::White,
            rights: Rights {
                white: both,
                black: both,
            },
            en_passant: None,
            clock: 0,
            number: 1,
        };
        Position { setup }
    }
}
