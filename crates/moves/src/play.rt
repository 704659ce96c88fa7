//! What follows from a move.
ghost use Rattle.std.specs.Prelude.{◌≡◌, ◌<◌, true};
ghost use Rattle.std.specs.Option.{option_map};
ghost use Rattle.rules.specs.Move.{is_pawn_move};
ghost use Rattle.rules.specs.After.{arrival, moved, rook_moved, codes_after as codes_next, touches as touching, castling_after, rights_after, en_passant_after, counted_on, clock_after, number_after, after as next};
ghost use Rattle.laws.specs.Setup.{parts, square_number};
ghost use Rattle.moves.specs.Action.{plain};

use crate::action::Move;
use crate::sort::{moves_pawn, moves_rook_too, steps_twice, takes, takes_crossing};
use crate::squares::write;
use board::piece::{Kind, code};
use board::side::Side;
use board::square::Square;
use laws::setup::Setup;
use rules::home::{Home, ahead};
use rules::rights::{Castling, Rights};

// What stands on the target: the piece that moved, or what it promotes to.
fn arriving(setup: &Setup, m: Move) -> u8
    ensures { result ≡ arrival (parts setup.now) (plain m) }
{
    match m.promotion {
        Some(promotion) => code(setup.side, Kind::from(promotion)),
        None => setup.code_on(m.from),
    }
}

// A code goes from one square to another. The codes alone: they belong to a position in the making.
#[tactic(auto, unfolding(rules::specs::After::moved))]
fn go(codes: &mut [u8; 64], from: usize, to: usize, code: u8)
    ensures { codes.new ≡ moved codes.old from to code }
{
    write(codes, from, 0);
    write(codes, to, code);
}

// The rook goes to the square that the castling king crossed.
#[tactic(auto, unfolding(rules::specs::After::rook_moved))]
fn rook_goes(codes: &mut [u8; 64], side: Side, from: Square, to: Square)
    ensures { codes.new ≡ rook_moved codes.old side from.number to.number }
{
    let rook = code(side, Kind::Rook);
    let home = Home::of(side);
    if from.number() < to.number() {
        go(codes, home.kingside_rook.index(), from.index() + 1, rook);
    } else {
        go(
            codes,
            home.queenside_rook.index(),
            from.index().saturating_sub(1),
            rook,
        );
    }
}

// The codes after a move: a castling move moves the rook too, and one en passant takes the pawn beside its target.
#[tactic(auto, unfolding(rules::specs::After::codes_after))]
pub(crate) fn codes_after(setup: &Setup, m: Move) -> [u8; 64]
    ensures { result ≡ codes_next (parts setup.now) (plain m) }
{
    let mut codes = setup.codes;
    go(&mut codes, m.from.index(), m.to.index(), arriving(setup, m));
    if moves_rook_too(setup, m) {
        rook_goes(&mut codes, setup.side, m.from, m.to);
    } else if takes_crossing(setup, m) {
        write(&mut codes, ahead(setup.side.other(), m.to.number()), 0);
    }
    codes
}

// Whether a move leaves or reaches a square.
fn touches(m: Move, square: Square) -> bool
    ensures { result ≡ touching (plain m) square.number }
{
    m.from == square || m.to == square
}

// A right falls when a move leaves or reaches its king's or its rook's home square.
fn side_rights_after(side: Side, rights: Castling, m: Move) -> Castling
    ensures { result ≡ castling_after side rights (plain m) }
{
    let home = Home::of(side);
    let king = touches(m, home.king);
    Castling {
        kingside: rights.kingside && !king && !touches(m, home.kingside_rook),
        queenside: rights.queenside && !king && !touches(m, home.queenside_rook),
    }
}

fn all_rights_after(rights: Rights, m: Move) -> Rights
    ensures { result ≡ rights_after rights (plain m) }
{
    Rights {
        white: side_rights_after(Side::White, rights.white, m),
        black: side_rights_after(Side::Black, rights.black, m),
    }
}

// The square that a double step just crossed.
fn just_crossed(setup: &Setup, m: Move) -> Option<Square>
    requires { is_pawn_move (parts setup.now) (plain m) ≡ true → (plain m).from < 56 }
    ensures { option_map square_number result ≡ en_passant_after (parts setup.now) (plain m) }
{
    if steps_twice(setup, m) {
        Square::new(ahead(setup.side, m.from.number()) as u8)
    } else {
        None
    }
}

// A counter does not grow past 9,999.
fn count_on(count: u16) -> u16
    ensures { result ≡ counted_on count }
{
    count.saturating_add(1).min(9999)
}

fn next_clock(setup: &Setup, m: Move) -> u16
    ensures { result ≡ clock_after (parts setup.now) (plain m) }
{
    if moves_pawn(setup, m) || takes(setup, m) {
        0
    } else {
        count_on(setup.clock)
    }
}

fn next_number(side: Side, number: u16) -> u16
    ensures { result ≡ number_after side number }
{
    match side {
        Side::White => number,
        Side::Black => count_on(number),
    }
}

// The parts of the position after a move.
#[tactic(auto, unfolding(rules::specs::After::after))]
pub(crate) fn setup_after(setup: &Setup, m: Move) -> Setup
    requires { is_pawn_move (parts setup.now) (plain m) ≡ true → (plain m).from < 56 }
    ensures { parts result ≡ next (parts setup.now) (plain m) }
{
    Setup {
        codes: codes_after(setup, m),
        side: setup.side.other(),
        rights: all_rights_after(setup.rights, m),
        en_passant: just_crossed(setup, m),
        clock: next_clock(setup, m),
        number: next_number(setup.side, setup.number),
    }
}
