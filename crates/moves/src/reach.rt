//! How far the piece on a square reaches.
ghost use Rattle.std.specs.Prelude.{◌≡◌, ◌≤◌, ◌<◌, ◌↔◌, ◌≢◌, IsTrue};
ghost use Rattle.board.specs.Attack.{attacks_from, pawn_attack};
ghost use Rattle.board.specs.Geometry.{knight_step, king_step};
ghost use Rattle.board.specs.Rule.{Line, On, files, ranks};
ghost use Rattle.moves.specs.Path.{Free, Slides, line_step};

use board::piece::{Kind, code};
use board::side::Side;
use board::square::Square;
use laws::setup::Setup;

// How many files, and how many ranks, apart two squares are.
pub(crate) fn apart(from: Square, to: Square) -> (u8, u8)
    ensures files { result.0 ≡ files from.number to.number }
    ensures ranks { result.1 ≡ ranks from.number to.number }
{
    (
        from.file().abs_diff(to.file()),
        from.rank().abs_diff(to.rank()),
    )
}

// Whether a square is one of the two diagonally ahead of a side's pawn.
#[tactic(auto, unfolding(board::specs::Attack::pawn_attack))]
pub(crate) fn pawn_reaches(side: Side, from: Square, to: Square) -> bool
    ensures { result ≡ pawn_attack side from.number to.number }
{
    let beside = from.file().abs_diff(to.file()) == 1;
    match side {
        Side::White => from.rank() + 1 == to.rank() && beside,
        Side::Black => to.rank() + 1 == from.rank() && beside,
    }
}

#[tactic(auto, unfolding(board::specs::Geometry::knight_step))]
fn knight_reaches(from: Square, to: Square) -> bool
    ensures { result ≡ knight_step from.number to.number }
{
    matches!(apart(from, to), (1, 2) | (2, 1))
}

#[tactic(auto, unfolding(board::specs::Geometry::king_step))]
fn king_reaches(from: Square, to: Square) -> bool
    ensures { result ≡ king_step from.number to.number }
{
    matches!(apart(from, to), (0, 1) | (1, 0) | (1, 1))
}

// From one square of a line to the next higher one.
fn step_between(low: Square, high: Square) -> usize
    ensures step { result ≡ line_step low.number high.number }
    ensures least { 1 ≤ result }
    ensures most { result ≤ 9 }
{
    if low.rank() == high.rank() {
        1
    } else if low.file() == high.file() {
        8
    } else if low.file() < high.file() {
        9
    } else {
        7
    }
}

// Whether every square strictly between two on one line, the lower one first, is empty.
fn rising_open(codes: &[u8; 64], low: Square, high: Square) -> bool
    requires { low.number < high.number }
    ensures { (l : Line) → On l low.number high.number → IsTrue result ↔ Free l codes.now low.number high.number }
{
    let step = step_between(low, high);
    // A loop: the library has no law of what a chain over step_by asks of its closure, which reads a square.
    for at in (low.index() + step..high.index()).step_by(step) {
        if codes[at] != 0 {
            return false;
        }
    }
    true
}

// Whether every square strictly between two on one line is empty.
fn line_open(codes: &[u8; 64], from: Square, to: Square) -> bool
    ensures { (l : Line) → (from.number ≢ to.number) → On l from.number to.number → IsTrue result ↔ Free l codes.now from.number to.number }
{
    if from.number() < to.number() {
        rising_open(codes, from, to)
    } else if to.number() < from.number() {
        rising_open(codes, to, from)
    } else {
        true
    }
}

// Whether a code is a line piece of the side that moves along a line from one square to another.
fn slides_to(found: u8, side: Side, from: Square, to: Square) -> bool
    ensures { IsTrue result ↔ Slides side found from.number to.number }
{
    let (files, ranks) = apart(from, to);
    let queen = found == code(side, Kind::Queen);
    let rook = found == code(side, Kind::Rook);
    let bishop = found == code(side, Kind::Bishop);
    let straight = files == 0 || ranks == 0;
    from != to && (straight && (queen || rook) || files == ranks && (queen || bishop))
}

// Whether the piece on a square is the side's to move and attacks another.
pub(crate) fn reaches(setup: &Setup, from: Square, to: Square) -> bool
    ensures { result ≡ attacks_from setup.now.side setup.now.codes from.number to.number }
{
    let side = setup.side;
    let found = setup.code_on(from);
    if found == code(side, Kind::Pawn) {
        return pawn_reaches(side, from, to);
    }
    if found == code(side, Kind::Knight) {
        return knight_reaches(from, to);
    }
    if found == code(side, Kind::King) {
        return king_reaches(from, to);
    }
    slides_to(found, side, from, to) && line_open(&setup.codes, from, to)
}
