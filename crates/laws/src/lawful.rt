//! The tests of the laws.
ghost use Rattle.std.specs.Prelude.{◌≡◌, ◌≤◌, true, false, MatchResult, Some, slice_index};
ghost use Rattle.std.specs.Option.{option_map};
ghost use Rattle.board.specs.Attack.{in_check};
ghost use Rattle.rules.specs.Lawful.{is_board, count as counted, one_king_each, is_pawn as pawn, edges_free, right_stands, side_rights_stand, rights_stand, en_passant_stands, counters_stand};
ghost use Rattle.rules.specs.Side.{rights_of};
ghost use Rattle.laws.specs.Setup.{parts, square_number};
ghost use Rattle.laws.specs.Judged.{obeyed};

use crate::setup::Setup;
use board::Board;
use board::check::in_check;
use board::picture::{picture, show};
use board::piece::{Kind, code};
use board::side::Side;
use board::square::Square;
use rules::breach::Breach;
use rules::home::Home;

// Whether a code is that of a pawn.
fn is_pawn(found: u8) -> bool
    ensures { result ≡ pawn found }
{
    found == code(Side::White, Kind::Pawn) || found == code(Side::Black, Kind::Pawn)
}

// The breach of a law, unless it holds.
fn hold(holds: bool, law: Breach) -> Result<(), Breach>
    ensures { MatchResult result (λ _. holds ≡ true) (λ e. (holds ≡ false) × (e ≡ law)) }
{
    if holds { Ok(()) } else { Err(law) }
}

impl Setup {
    // Whether no code is above 12.
    fn all_codes(&self) -> bool
        ensures { result ≡ is_board self.now.codes }
    {
        self.codes.iter().all(|&code| code <= 12)
    }

    // How many squares hold a code.
    fn count(&self, wanted: u8) -> u8
        ensures { result ≡ counted wanted self.now.codes }
    {
        // Not filter and count, which take the codes one by one: a sum of bytes takes many at once, and 64 fit in a byte.
        self.codes.iter().fold(0u8, |found, &code| {
            found.wrapping_add(u8::from(code == wanted))
        })
    }

    // Whether each side has one king.
    #[tactic(auto, unfolding(rules::specs::Lawful::one_king_each))]
    fn one_king_each(&self) -> bool
        ensures { result ≡ one_king_each self.now.codes }
    {
        self.count(code(Side::White, Kind::King)) == 1
            && self.count(code(Side::Black, Kind::King)) == 1
    }

    // Whether no pawn stands on rank 1 or 8.
    fn edges_free(&self) -> bool
        ensures { result ≡ edges_free self.now.codes }
    {
        (0..8usize).all(|file| !is_pawn(self.codes[file]) && !is_pawn(self.codes[56 + file]))
    }

    // Whether a side is in check where these codes stand; the board is left as it was.
    fn exposed<B: Board>(&self, board: &mut B, side: Side) -> bool
        requires { is_board self.now.codes ≡ true }
        ensures answer { result ≡ in_check side self.now.codes }
        ensures list { B.codes board.new ≡ B.codes board.old }
    {
        let former = picture(board);
        show(board, &self.codes);
        let answer = in_check(board, side);
        show(board, &former);
        answer
    }

    // Whether a right is absent, or its king and rook are at home.
    fn right_stands(&self, side: Side, right: bool, rook: Square) -> bool
        ensures { result ≡ right_stands self.now.codes side right rook.number }
    {
        !right
            || self.holds(side, Kind::King, Home::of(side).king)
                && self.holds(side, Kind::Rook, rook)
    }

    // Whether the rights of a side stand.
    fn side_rights_stand(&self, side: Side) -> bool
        ensures { result ≡ side_rights_stand self.now.codes side (rights_of self.now.rights side) }
    {
        let rights = self.rights.of(side);
        let home = Home::of(side);
        self.right_stands(side, rights.kingside, home.kingside_rook)
            && self.right_stands(side, rights.queenside, home.queenside_rook)
    }

    #[tactic(auto, unfolding(rules::specs::Lawful::rights_stand))]
    fn rights_stand(&self) -> bool
        ensures { result ≡ rights_stand self.now.codes self.now.rights }
    {
        self.side_rights_stand(Side::White) && self.side_rights_stand(Side::Black)
    }

    // Whether a pawn of the side not to move has just gone over a square.
    #[tactic(auto, unfolding(rules::specs::Lawful::en_passant_stands))]
    fn just_crossed(&self, square: Square) -> bool
        ensures { result ≡ en_passant_stands self.now.codes self.now.side (Some (square_number square)) self.now.clock }
    {
        let side = self.side;
        let enemy = side.other();
        square.rank() == Home::of(side).en_passant_rank
            && self.code_on(square) == 0
            && self.code_ahead(side, square) == 0
            && self.code_ahead(enemy, square) == code(enemy, Kind::Pawn)
            && self.clock == 0
    }

    #[tactic(auto, unfolding(rules::specs::Lawful::en_passant_stands))]
    fn en_passant_stands(&self) -> bool
        ensures { result ≡ en_passant_stands self.now.codes self.now.side (option_map square_number self.now.en_passant) self.now.clock }
    {
        self.en_passant
            .is_none_or(|square| self.just_crossed(square))
    }

    #[tactic(auto, unfolding(rules::specs::Lawful::counters_stand))]
    fn counters_stand(&self) -> bool
        ensures { result ≡ counters_stand self.now.clock self.now.number }
    {
        self.clock <= 9999 && self.number >= 1 && self.number <= 9999
    }

    /// The first law that the parts break, if they break one. The board, which is asked for attacks, is left as it was.
    #[tactic(auto, unfolding(rules::specs::Lawful::broken))]
    pub(crate) fn obey<B: Board>(&self, board: &mut B) -> Result<(), Breach>
        ensures answer { result ≡ obeyed (parts self.now) }
        ensures list { B.codes board.new ≡ B.codes board.old }
    {
        hold(self.all_codes(), Breach::Codes)?;
        hold(self.one_king_each(), Breach::Kings)?;
        hold(self.edges_free(), Breach::Pawns)?;
        hold(!self.exposed(board, self.side.other()), Breach::Check)?;
        hold(self.rights_stand(), Breach::Rights)?;
        hold(self.en_passant_stands(), Breach::EnPassant)?;
        hold(self.counters_stand(), Breach::Counters)
    }
}
