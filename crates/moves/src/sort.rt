//! What sort of move one is. A move and the parts of its position stay two arguments, here and in `play`: the public calls take them so, and a
//! struct of both would be made at each call.
ghost use Rattle.std.specs.Prelude.{◌≡◌};
ghost use Rattle.rules.specs.Move.{is_pawn_move, is_castling, is_double_step, takes_en_passant, is_capture};
ghost use Rattle.laws.specs.Setup.{parts};
ghost use Rattle.moves.specs.Action.{plain};

use crate::action::Move;
use crate::reach::apart;
use crate::squares::is_crossed;
use board::piece::Kind;
use laws::setup::Setup;

pub(crate) fn moves_pawn(setup: &Setup, m: Move) -> bool
    ensures { result ≡ is_pawn_move (parts setup.now) (plain m) }
{
    setup.holds(setup.side, Kind::Pawn, m.from)
}

/// Whether a move is castling: the king's move by two files.
pub fn moves_rook_too(setup: &Setup, m: Move) -> bool
    ensures { result ≡ is_castling (parts setup.now) (plain m) }
{
    let (files, _) = apart(m.from, m.to);
    setup.holds(setup.side, Kind::King, m.from) && files == 2
}

// A pawn's move by two ranks. Apart from the king's by two files: one test of a kind and a distance would be no shorter.
pub(crate) fn steps_twice(setup: &Setup, m: Move) -> bool
    ensures { result ≡ is_double_step (parts setup.now) (plain m) }
{
    let (_, ranks) = apart(m.from, m.to);
    moves_pawn(setup, m) && ranks == 2
}

pub(crate) fn takes_crossing(setup: &Setup, m: Move) -> bool
    ensures { result ≡ takes_en_passant (parts setup.now) (plain m) }
{
    moves_pawn(setup, m) && is_crossed(setup.en_passant, m.to) && m.from.file() != m.to.file()
}

/// Whether a move is a capture: on its target, or en passant.
pub fn takes(setup: &Setup, m: Move) -> bool
    ensures { result ≡ is_capture (parts setup.now) (plain m) }
{
    setup.code_on(m.to) != 0 || takes_crossing(setup, m)
}
