//! Judging moves and positions. Each call first shows the position on the board, and leaves it there.
ghost use Rattle.std.specs.Prelude.{◌≡◌, ◌+◌, ◌*◌, ◌≤◌, map, IfOk, if◌then◌else◌, Some, None};
ghost use Rattle.std.specs.List.{range_with_len};
ghost use Rattle.std.specs.Option.{option_map};
ghost use Rattle.board.specs.declared.piece.Kind.TheVariants.{Pawn};
ghost use Rattle.board.specs.Below.{some_below};
ghost use Rattle.board.specs.Piece.{other, holds};
ghost use Rattle.rules.specs.Move.{numbered_move};
ghost use Rattle.rules.specs.After.{codes_after, after as next};
ghost use Rattle.rules.specs.Legal.{pawn_home, keep, legal, legal_moves, can_move, checkmate as mated, stalemate as stalemated};
ghost use Rattle.laws.specs.Position.{position_parts};
ghost use Rattle.moves.specs.Action.{plain};

use crate::action::Move;
use crate::play::setup_after;
use crate::squares::code_on;
use crate::table::Table;
use board::Board;
use board::check::in_check;
use board::piece::{Kind, code};
use laws::position::Position;
use laws::setup::Setup;
use rules::home::Home;
use std::alloc::{AllocError, Global};

/// Whether a move is legal.
pub fn is_legal<B: Board>(board: &mut B, position: &Position, m: Move) -> bool
    ensures answer { result ≡ legal (position_parts position.now) (plain m) }
    ensures list { B.codes board.new ≡ (position_parts position.now).codes }
{
    position.show(board);
    let setup = &position.setup;
    Table { board, setup }.is_legal(m)
}

/// The position after a move, which the board then shows, or none if the move is not legal.
pub fn after<B: Board>(board: &mut B, position: &Position, m: Move) -> Option<Position>
    ensures answer { option_map position_parts result ≡ (if legal (position_parts position.now) (plain m) then Some (next (position_parts position.now) (plain m)) else None) }
    ensures list { B.codes board.new ≡ (if legal (position_parts position.now) (plain m) then codes_after (position_parts position.now) (plain m) else (position_parts position.now).codes) }
{
    if !is_legal(board, position, m) {
        return None;
    }
    let setup = setup_after(&position.setup, m);
    let next = Position { setup };
    next.show(board);
    Some(next)
}

/// Whether the side to move has a legal move.
pub fn can_move<B: Board>(board: &mut B, position: &Position) -> bool
    ensures answer { result ≡ can_move (position_parts position.now) }
    ensures list { B.codes board.new ≡ (position_parts position.now).codes }
{
    position.show(board);
    let setup = &position.setup;
    Table { board, setup }.can_move()
}

/// Whether the side to move is in check and has no legal move.
#[tactic(auto, unfolding(rules::specs::Legal::checkmate))]
pub fn checkmate<B: Board>(board: &mut B, position: &Position) -> bool
    ensures answer { result ≡ mated (position_parts position.now) }
    ensures list { B.codes board.new ≡ (position_parts position.now).codes }
{
    position.show(board);
    let setup = &position.setup;
    in_check(board, setup.side) && !Table { board, setup }.can_move()
}

/// Whether the side to move is not in check and has no legal move.
// Apart from checkmate: one call for both would take a flag that says which.
#[tactic(auto, unfolding(rules::specs::Legal::stalemate))]
pub fn stalemate<B: Board>(board: &mut B, position: &Position) -> bool
    ensures answer { result ≡ stalemated (position_parts position.now) }
    ensures list { B.codes board.new ≡ (position_parts position.now).codes }
{
    position.show(board);
    let setup = &position.setup;
    !in_check(board, setup.side) && !Table { board, setup }.can_move()
}

// Whether a pawn of the side to move stands before its last rank, where the other side's pawns start.
fn may_promote(setup: &Setup) -> bool
    ensures { result ≡ some_below 8 (λ f. holds setup.now.codes setup.now.side Pawn (8 * pawn_home (other setup.now.side) + f)) }
{
    let first = 8 * usize::from(Home::of(setup.side.other()).pawn_rank);
    let pawn = code(setup.side, Kind::Pawn);
    (0..8usize).any(|file| code_on(&setup.codes, first + file) == pawn)
}

// One more than the highest number to try: those from 4096 on are of moves that promote.
fn numbers(position: &Position) -> u16
    ensures most { result ≤ 24576 }
    ensures all { keep (legal (position_parts position.now)) (map numbered_move (range_with_len 0 result)) ≡ legal_moves (position_parts position.now) }
{
    if may_promote(&position.setup) {
        24576
    } else {
        4096
    }
}

/// The legal moves, in ascending order of their numbers.
pub fn legal_moves<B: Board>(
    heap: Global,
    board: &mut B,
    position: &Position,
) -> Result<Vec<Move>, AllocError>
    ensures answer { IfOk result (λ v. map plain v.items ≡ legal_moves (position_parts position.now)) }
    ensures list { B.codes board.new ≡ (position_parts position.now).codes }
{
    position.show(board);
    let setup = &position.setup;
    let mut table = Table { board, setup };
    let mut moves = Vec::new(heap);
    // A loop: the closure of a chain may not change the board that it tries moves on.
    for number in 0..numbers(position) {
        if let Some(m) = table.legal_numbered(number) {
            moves.push(m)?;
        }
    }
    Ok(moves)
}
