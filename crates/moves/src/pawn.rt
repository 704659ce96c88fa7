//! How a pawn goes.
ghost use Rattle.std.specs.Prelude.{◌≡◌};
ghost use Rattle.rules.specs.Legal.{pawn_advance, pawn_capture, promotes as promoting};
ghost use Rattle.laws.specs.Setup.{parts};
ghost use Rattle.moves.specs.Action.{plain};

use crate::action::Move;
use crate::reach::pawn_reaches;
use crate::squares::{is_crossed, is_own};
use board::side::Side;
use laws::setup::Setup;
use rules::home::{Home, ahead};

// Whether a pawn goes one square ahead, or two from its first rank, over empty squares.
#[tactic(auto, unfolding(rules::specs::Legal::pawn_advance))]
pub(crate) fn advances(setup: &Setup, m: Move) -> bool
    ensures { result ≡ pawn_advance setup.now.codes setup.now.side m.from.number m.to.number }
{
    let one = ahead(setup.side, m.from.number());
    let two = ahead(setup.side, one as u8);
    let to = m.to.index();
    let free = setup.code_on(m.to) == 0;
    let crossed = setup.code_ahead(setup.side, m.from) == 0;
    let home = m.from.rank() == Home::of(setup.side).pawn_rank;
    (to == one && free) || (home && to == two && crossed && free)
}

// Whether a pawn captures diagonally ahead: an enemy's piece, or a pawn en passant.
#[tactic(auto, unfolding(rules::specs::Legal::pawn_capture))]
pub(crate) fn captures(setup: &Setup, m: Move) -> bool
    ensures { result ≡ pawn_capture setup.now.codes setup.now.side (parts setup.now).en_passant m.from.number m.to.number }
{
    let enemy = is_own(setup.side.other(), setup.code_on(m.to));
    let crossed = is_crossed(setup.en_passant, m.to);
    pawn_reaches(setup.side, m.from, m.to) && (enemy || crossed)
}

// Whether a pawn's move promotes exactly on the last rank.
pub(crate) fn promotes(side: Side, m: Move) -> bool
    ensures { result ≡ promoting side (plain m) }
{
    m.promotion.is_some() == (m.to.rank() == Home::of(side).last_rank)
}
