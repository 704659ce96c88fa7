//! Lawful positions.
ghost use Rattle.std.specs.Prelude.{◌≡◌, true};
ghost use Rattle.rules.specs.Lawful.{lawful};
ghost use Rattle.laws.specs.Setup.{parts};

use crate::setup::Setup;

pub mod make;

/// A position that obeys the laws: one king a side; no pawn on rank 1 or 8; the king of the side not to move not attacked; a castling right
/// only while its king and rook are at home; an en passant square only just crossed by a double step; the counters in their range.
#[derive(Clone, Copy, PartialEq, Eq, Debug)]
pub struct Position {
    pub setup: Setup,
    ghost ok: { lawful (parts setup) ≡ true },
}
