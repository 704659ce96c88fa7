//! Questions about attacks and check, on any board.
ghost use Rattle.std.specs.Prelude.{◌≡◌, ◌↔◌, IsTrue};
ghost use Rattle.board.specs.Attack.{attacks, in_check};
ghost use Rattle.board.specs.Meaning.{put_list};
ghost use Rattle.board.specs.Rule.{InCheck};

use crate::Board;
use crate::piece::{Kind, code};
use crate::side::Side;

/// Whether a side is in check: whether any king of it is attacked.
pub fn in_check<B: Board>(board: &B, side: Side) -> bool
    ensures answer { result ≡ in_check side (B.codes board.now) }
    ensures rule { IsTrue result ↔ InCheck side (B.codes board.now) }
{
    let king = code(side, Kind::King);
    let enemy = side.other();
    // A loop, since the next square to ask from is behind the one found: as a chain (successors) it needs a bound to be known to end.
    let mut from = 0;
    while let Some(square) = board.next(from, king) {
        if board.attacked(enemy, square) {
            return true;
        }
        from = square + 1;
    }
    false
}

/// Whether a side would attack a square if a code stood on another; the board's list is left as it was.
pub fn would_attack<B: Board>(board: &mut B, on: u8, code: u8, by: Side, square: u8) -> bool
    ensures answer { result ≡ attacks by (put_list (B.codes board.old) on code) square }
    ensures list { B.codes board.new ≡ B.codes board.old }
{
    let former = board.put(on, code);
    let answer = board.attacked(by, square);
    board.put(on, former);
    answer
}
