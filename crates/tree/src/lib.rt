//! The tree of legal play: how many leaves it has at a depth.
#![tactic(auto)]

ghost use Rattle.std.specs.Prelude.{◌≡◌, ◌-◌, ◌^◌, min, IfOk};
ghost use Rattle.laws.specs.Position.{position_parts};
ghost use Rattle.tree.specs.Leaves.{leaf_count};

use board::Board;
use laws::position::Position;
use moves::action::Move;
use moves::legal::{after, legal_moves};
use std::alloc::{AllocError, Global};

/// How many positions legal play leads to in exactly so many moves, each way to one counted; at most 2^64 − 1.
#[tactic(auto, using(crate::proofs::Sums::leaf_counts))]
pub fn leaves<B: Board>(
    heap: Global,
    board: &mut B,
    position: &Position,
    depth: u8,
) -> Result<u64, AllocError>
    ensures { IfOk result (λ n. n ≡ min (leaf_count (position_parts position.now) depth) (2 ^ 64 - 1)) }
{
    if depth == 0 {
        return Ok(1);
    }
    let moves = legal_moves(heap, board, position)?;
    if depth == 1 {
        return Ok(moves.len() as u64);
    }
    // A loop: in a `try_fold` the closure would borrow the board, call this function and answer a Result, which is no plainer.
    let mut total = 0u64;
    for m in &moves {
        if let Some(next) = after(board, position, *m) {
            total = total.saturating_add(leaves(heap, board, &next, depth - 1)?);
        }
    }
    Ok(total)
}
