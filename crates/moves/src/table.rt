//! A position on a board.
ghost use Rattle.std.specs.Prelude.{◌≡◌};

use board::Board;
use laws::setup::Setup;

/// The parts of a position, and a board that shows them.
#[derive(Drop)]
pub(crate) struct Table<'b, 's, B: Board> {
    pub(crate) board: &'b mut B,
    pub(crate) setup: &'s Setup,
    ghost shown: { B.codes board.now ≡ setup.now.codes },
}
