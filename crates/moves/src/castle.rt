//! Castling.
ghost use Rattle.std.specs.Prelude.{◌≡◌};
ghost use Rattle.rules.specs.Legal.{castles as castling};
ghost use Rattle.laws.specs.Setup.{parts};
ghost use Rattle.moves.specs.Action.{plain};
ghost use Rattle.moves.specs.Castling.{castles_to};

use crate::action::Move;
use crate::table::Table;
use board::Board;
use board::piece::Kind;
use rules::home::Home;
use rules::rights::Wing;

impl<'b, 's, B: Board> Table<'b, 's, B> {
    // Whether the king of the side to move may castle to a wing: it has the right, no piece stands between king and rook, and the enemy
    // attacks neither the king's square nor the crossed one nor the target.
    #[tactic(auto, unfolding(rules::specs::Legal::castles_kingside, rules::specs::Legal::castles_queenside))]
    fn castles_to(&self, wing: Wing, right: bool) -> bool
        ensures { result ≡ castles_to self.now.setup.now.codes self.now.setup.now.side wing right }
    {
        let codes = &self.setup.codes;
        let enemy = self.setup.side.other();
        let king = Home::of(self.setup.side).king.number();
        let (crossed, target, open) = match wing {
            Wing::Kingside => (king + 1, king + 2, true),
            Wing::Queenside => (king - 1, king - 2, codes[usize::from(king) - 3] == 0),
        };
        let free = open && codes[usize::from(crossed)] == 0 && codes[usize::from(target)] == 0;
        right
            && free
            && !self.board.attacked(enemy, king)
            && !self.board.attacked(enemy, crossed)
            && !self.board.attacked(enemy, target)
    }

    // Whether a move castles.
    #[tactic(auto, unfolding(rules::specs::Legal::castles))]
    pub(crate) fn castles(&self, m: Move) -> bool
        ensures { result ≡ castling (parts self.now.setup.now) (plain m) }
    {
        let side = self.setup.side;
        let king = Home::of(side).king;
        if !self.setup.holds(side, Kind::King, m.from) || m.from != king {
            return false;
        }
        let rights = self.setup.rights.of(side);
        let to = m.to.number();
        if to == king.number() + 2 {
            return self.castles_to(Wing::Kingside, rights.kingside);
        }
        to == king.number() - 2 && self.castles_to(Wing::Queenside, rights.queenside)
    }
}
