//! How play goes on from a position, written behind what the buffer has.
ghost use Rattle.std.specs.Prelude.{◌≡◌, true, ◌++◌, map, OnOk};
ghost use Rattle.std.specs.List.{All};
ghost use Rattle.laws.specs.Position.{position_parts};
ghost use Rattle.rules.specs.Legal.{legal, legal_moves as legal_list};
ghost use Rattle.moves.specs.Action.{plain};
ghost use Rattle.san.specs.Written.{san as san_of};
ghost use Rattle.drawing.specs.Drawing.{spaced, joined, play_drawn};

use board::Board;
use laws::position::Position;
use moves::action::Move;
use moves::legal::{checkmate, legal_moves, stalemate};
use movetext::write::san;
use std::alloc::AllocError;

// A legal move in SAN.
fn add_san<B: Board>(
    out: &mut Vec<u8>,
    board: &mut B,
    position: &Position,
    m: Move,
) -> Result<(), AllocError>
    requires { legal (position_parts position.now) (plain m) ≡ true }
    ensures { OnOk result (out.new.items ≡ out.old.items ++ san_of (position_parts position.now) (plain m)) }
{
    match san(board, position, m) {
        Some(text) => out.extend_from_slice(&text),
        None => Ok(()),
    }
}

// Legal moves in SAN, a space before each.
fn add_spaced<B: Board>(
    out: &mut Vec<u8>,
    board: &mut B,
    position: &Position,
    moves: &[Move],
) -> Result<(), AllocError>
    requires { All (λ m. legal (position_parts position.now) (plain m) ≡ true) moves.now }
    ensures { OnOk result (out.new.items ≡ out.old.items ++ spaced (map (λ m. san_of (position_parts position.now) (plain m)) moves.now)) }
{
    for m in moves {
        out.push(b' ')?;
        add_san(out, board, position, *m)?;
    }
    Ok(())
}

// The legal moves in SAN, in the order of their numbers, with single spaces between them.
fn add_moves<B: Board>(
    out: &mut Vec<u8>,
    board: &mut B,
    position: &Position,
) -> Result<(), AllocError>
    ensures { OnOk result (out.new.items ≡ out.old.items ++ joined (map (san_of (position_parts position.now)) (legal_list (position_parts position.now)))) }
{
    let moves = legal_moves(*out.allocator(), board, position)?;
    let Some((first, rest)) = moves.split_first() else {
        return Ok(());
    };
    add_san(out, board, position, *first)?;
    add_spaced(out, board, position, rest)
}

/// That the side to move is mated or stalemated, or else its legal moves.
#[tactic(auto, unfolding(crate::specs::Drawing::play_drawn))]
pub(crate) fn play<B: Board>(
    out: &mut Vec<u8>,
    board: &mut B,
    position: &Position,
) -> Result<(), AllocError>
    ensures { OnOk result (out.new.items ≡ out.old.items ++ play_drawn (position_parts position.now)) }
{
    if checkmate(board, position) {
        out.extend_from_slice(b"checkmate")
    } else if stalemate(board, position) {
        out.extend_from_slice(b"stalemate")
    } else {
        add_moves(out, board, position)
    }
}
