//! How a piece goes, whatever becomes of its king.
ghost use Rattle.std.specs.Prelude.{◌≡◌};
ghost use Rattle.rules.specs.Legal.{goes as going};
ghost use Rattle.laws.specs.Setup.{parts};
ghost use Rattle.moves.specs.Action.{plain};

use crate::action::Move;
use crate::pawn::{advances, captures, promotes};
use crate::reach::reaches;
use crate::sort::moves_pawn;
use crate::table::Table;
use board::Board;

impl<'b, 's, B: Board> Table<'b, 's, B> {
    // Whether a piece moves as its kind does.
    #[tactic(auto, unfolding(rules::specs::Legal::goes))]
    pub(crate) fn goes(&self, m: Move) -> bool
        ensures { result ≡ going (parts self.now.setup.now) (plain m) }
    {
        let setup = self.setup;
        if moves_pawn(setup, m) {
            return promotes(setup.side, m) && (advances(setup, m) || captures(setup, m));
        }
        m.promotion.is_none() && (reaches(setup, m.from, m.to) || self.castles(m))
    }
}
