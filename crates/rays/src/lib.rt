//! For each square, the squares beyond it in each direction, and those from which a piece attacks it by a step.
//!
//! Directions and squares stay plain numbers: each public function answers for every `u8`, as its line says, and a direction is the row of a table.
#![tactic(auto)]

ghost use Rattle.std.specs.Prelude.{◌≡◌, ◌+◌, ◌*◌, ◌<◌, ◌&&◌, length, nat_lt};
ghost use Rattle.board.specs.Below.{some_below, least_below};
ghost use Rattle.board.specs.Attack.{step};
ghost use Rattle.rays.specs.Sets.{has, SetOf};
ghost use Rattle.rays.specs.Lines.{lies, first_on, leap, entry_of};

use board::piece::Kind;
use board::side::Side;
use tables::{LEAPS, RAYS};

pub mod bits;
mod tables;

/// The entry of a table with 64 to a row.
fn entry(table: &[u64], row: u8, square: u8) -> u64
    requires { 64 * row + square < length table.now }
    ensures { result ≡ entry_of table.now row square }
{
    table[64 * usize::from(row) + usize::from(square)]
}

/// The squares beyond a square in a direction; none for a direction above 7 or a square above 63.
pub fn ray(direction: u8, square: u8) -> u64
    ensures { SetOf (lies direction square) result }
{
    if direction > 7 || square > 63 {
        return 0;
    }
    entry(&RAYS, direction, square)
}

/// The squares of a row of leaps to a square; none for a square above 63. A row and not a table of its own: what a constant holds is computed
/// where the table is passed to `entry`, and not where it is returned.
fn leaps(row: u8, square: u8) -> u64
    requires { row < 4 }
    ensures { SetOf (λ s. nat_lt square 64 && leap row square s) result }
{
    if square > 63 {
        return 0;
    }
    entry(&LEAPS, row, square)
}

/// The squares from which a side's piece of a kind attacks a square by a step; none for a kind that takes none, or a square above 63.
pub fn leapers(by: Side, kind: Kind, square: u8) -> u64
    ensures { SetOf (λ s. nat_lt square 64 && step by kind s square) result }
{
    match (kind, by) {
        (Kind::Pawn, Side::White) => leaps(0, square),
        (Kind::Pawn, Side::Black) => leaps(1, square),
        (Kind::Knight, _) => leaps(2, square),
        (Kind::King, _) => leaps(3, square),
        (Kind::Bishop | Kind::Rook | Kind::Queen, _) => 0,
    }
}

/// The first occupied square beyond a square in a direction.
pub fn blocker(direction: u8, square: u8, occupied: u64) -> Option<u8>
    ensures { result ≡ least_below 64 (first_on occupied direction square) }
{
    let hit = ray(direction, square) & occupied;
    if direction < 4 {
        bits::lowest(hit)
    } else {
        bits::highest(hit)
    }
}

/// Whether the first occupied square beyond a square in a direction is a member of a set.
pub fn first_among(direction: u8, square: u8, occupied: u64, set: u64) -> bool
    ensures { result ≡ some_below 64 (λ s. has set s && first_on occupied direction square s) }
{
    bits::meet(set, ray(direction, square))
        && blocker(direction, square, occupied).is_some_and(|first| bits::contains(set, first))
}
