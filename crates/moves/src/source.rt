//! Where the moves of a kind to a target come from.
ghost use Rattle.std.specs.Prelude.{◌≡◌, ◌<◌, map};
ghost use Rattle.std.specs.List.{range_with_len};
ghost use Rattle.board.specs.Piece.{number};
ghost use Rattle.rules.specs.Legal.{source};
ghost use Rattle.laws.specs.Position.{position_parts};
ghost use Rattle.laws.specs.Setup.{parts};
ghost use Rattle.moves.specs.Action.{promotion_number};

use crate::action::{Move, Promotion};
use crate::sort::moves_rook_too;
use crate::table::Table;
use board::Board;
use board::piece::Kind;
use board::square::Square;
use laws::position::Position;

impl<'b, 's, B: Board> Table<'b, 's, B> {
    ghost use Rattle.moves.specs.Table.{Keeps};

    // Whether a move is legal, one of a piece of a kind, and not castling.
    #[tactic(auto, unfolding(rules::specs::Legal::source))]
    fn is_from(&mut self, kind: Kind, m: Move) -> bool
        ensures answer { result ≡ source (parts self.old.setup.now) (number kind) m.to.number (promotion_number m.promotion) m.from.number }
        ensures kept { Keeps self.old self.new }
    {
        let setup = self.setup;
        setup.holds(setup.side, kind, m.from) && !moves_rook_too(setup, m) && self.is_legal(m)
    }
}

/// For each square, whether a piece of a kind goes legally from it to a target with a promotion; castling apart.
pub fn sources<B: Board>(
    board: &mut B,
    position: &Position,
    kind: Kind,
    to: Square,
    promotion: Option<Promotion>,
) -> [bool; 64]
    ensures answer { result ≡ map (source (position_parts position.now) (number kind) to.number (promotion_number promotion)) (range_with_len 0 64) }
    ensures list { B.codes board.new ≡ (position_parts position.now).codes }
{
    position.show(board);
    let setup = &position.setup;
    let mut table = Table { board, setup };
    let mut found = [false; 64];
    // A loop: the closure of a chain may not change the board that it tries moves on.
    for number in 0..64u8 {
        if let Some(from) = Square::new(number) {
            let m = Move {
                from,
                to,
                promotion,
            };
            found[from.index()] = table.is_from(kind, m);
        }
    }
    found
}
