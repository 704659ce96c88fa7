//! Trying moves on a board that shows the position.
ghost use Rattle.std.specs.Prelude.{◌≡◌, ◌<◌, false, if◌then◌else◌, Some, None};
ghost use Rattle.std.specs.Option.{option_map};
ghost use Rattle.board.specs.Attack.{in_check};
ghost use Rattle.board.specs.Meaning.{Shown};
ghost use Rattle.rules.specs.Move.{numbered_move};
ghost use Rattle.rules.specs.After.{codes_after as codes_next};
ghost use Rattle.rules.specs.Legal.{legal, can_move};
ghost use Rattle.laws.specs.Setup.{parts};
ghost use Rattle.moves.specs.Action.{plain};
ghost use Rattle.moves.specs.Change.{SameBut};

use crate::action::Move;
use crate::play::codes_after;
use crate::sort::moves_rook_too;
use crate::squares::{code_on, is_own};
use crate::table::Table;
use board::Board;
use board::check::in_check;
use board::piece::{Kind, code};
use laws::setup::Setup;
use rules::home::{Home, ahead};

// The squares whose codes a move can change.
fn changed(setup: &Setup, m: Move) -> [u8; 4]
    ensures { SameBut result setup.now.codes (codes_next (parts setup.now) (plain m)) }
{
    let from = m.from.number();
    let to = m.to.number();
    let home = Home::of(setup.side);
    if !moves_rook_too(setup, m) {
        let beside = ahead(setup.side.other(), to) as u8;
        return [from, to, beside, beside];
    }
    if from < to {
        [from, to, home.kingside_rook.number(), from + 1]
    } else {
        [
            from,
            to,
            home.queenside_rook.number(),
            from.saturating_sub(1),
        ]
    }
}

// Puts the codes of some squares, outside which the board shows them already.
fn redraw<B: Board>(board: &mut B, picture: &[u8; 64], squares: &[u8; 4])
    requires shown { Shown picture.now }
    requires same { SameBut squares.now (B.codes board.old) picture.now }
    ensures { B.codes board.new ≡ picture.now }
{
    for &square in squares {
        board.put(square, code_on(picture, usize::from(square)));
    }
}

// Whether a move leaves the own king attacked: it is made on the board and taken back. Not a table's method, since in between the board
// does not show the table's position.
fn leaves_check<B: Board>(board: &mut B, setup: &Setup, m: Move) -> bool
    requires { B.codes board.old ≡ setup.now.codes }
    ensures answer { result ≡ in_check setup.now.side (codes_next (parts setup.now) (plain m)) }
    ensures list { B.codes board.new ≡ setup.now.codes }
{
    let next = codes_after(setup, m);
    let squares = changed(setup, m);
    redraw(board, &next, &squares);
    let answer = in_check(board, setup.side);
    redraw(board, &setup.codes, &squares);
    answer
}

// Whether the move with a number is worth a trial: an own piece moves, and only a pawn that comes to the last rank promotes.
// For speed it reads the number, before a move is made of it.
fn worth_trying(setup: &Setup, number: u16) -> bool
    ensures { result ≡ false → legal (parts setup.now) (numbered_move number) ≡ false }
{
    let found = code_on(&setup.codes, usize::from(number % 64));
    if !is_own(setup.side, found) {
        return false;
    }
    if number < 4096 {
        return true;
    }
    if found != code(setup.side, Kind::Pawn) {
        return false;
    }
    (number / 64 % 64 / 8) as u8 == Home::of(setup.side).last_rank
}

impl<'b, 's, B: Board> Table<'b, 's, B> {
    ghost use Rattle.moves.specs.Table.{Keeps};

    // Whether a move is legal.
    #[tactic(auto, unfolding(rules::specs::Legal::legal))]
    pub(crate) fn is_legal(&mut self, m: Move) -> bool
        ensures answer { result ≡ legal (parts self.old.setup.now) (plain m) }
        ensures kept { Keeps self.old self.new }
    {
        let own = is_own(self.setup.side, self.setup.code_on(m.from));
        let blocked = is_own(self.setup.side, self.setup.code_on(m.to));
        if !own || blocked || !self.goes(m) {
            return false;
        }
        !leaves_check(self.board, self.setup, m)
    }

    // The move with a number, if it is legal.
    pub(crate) fn legal_numbered(&mut self, number: u16) -> Option<Move>
        requires { number < 24576 }
        ensures answer { option_map plain result ≡ (if legal (parts self.old.setup.now) (numbered_move number) then Some (numbered_move number) else None) }
        ensures kept { Keeps self.old self.new }
    {
        if !worth_trying(self.setup, number) {
            return None;
        }
        let m = Move::numbered(number)?;
        self.is_legal(m).then_some(m)
    }

    // Whether there is a legal move.
    pub(crate) fn can_move(&mut self) -> bool
        ensures answer { result ≡ can_move (parts self.old.setup.now) }
        ensures kept { Keeps self.old self.new }
    {
        // A loop: the closure of a chain may not change the board that it tries moves on.
        for number in 0..24576u16 {
            if self.legal_numbered(number).is_some() {
                return true;
            }
        }
        false
    }
}
