//! A board of 120 cells, ten to a row: the 64 squares within a border of two rows above and below and a column at each side.
//! The border stops each walk and each leap that leaves the board.
#![tactic(auto)]

ghost use Rattle.std.specs.Prelude.{◌≡◌, ℕ, ◌<◌, ◌≤◌, All};
ghost use Rattle.board.specs.Attack.{step, slides, attacks};
ghost use Rattle.board.specs.Hits.{step_hit, line_hit, lines_hit};
ghost use Rattle.board.specs.Meaning.{empty_board};
ghost use Rattle.mailbox.specs.Cells.{cell_of, at_square, codes_of, Bordered, Coded, leaps_of, leap_hit};
ghost use Rattle.mailbox.specs.CellLists.{length_codes, codes_small};

use board::piece::Kind;
use board::side::Side;
use board::square::Square;
use board::{Board, piece};

/// What a cell of the border holds.
const BORDER: u8 = 255;

// Directions are numbers: they are counted through, index these steps, and are even along ranks and files.
/// One step on the cells in each direction, raised by 11: East, NorthWest, North, NorthEast, and then their opposites.
const STEPS: [u8; 8] = [12, 20, 21, 22, 10, 2, 1, 0];

/// The leaps from a square to where a knight, a king or a pawn that attacks it would stand, raised by 21.
const KNIGHT: [u8; 8] = [42, 33, 13, 2, 0, 9, 29, 40];

const KING: [u8; 8] = [31, 32, 22, 12, 11, 10, 20, 30];

const WHITE_PAWN: [u8; 2] = [10, 12];

const BLACK_PAWN: [u8; 2] = [30, 32];

/// A board as cells.
#[derive(Clone, Copy, PartialEq, Eq, Debug)]
pub struct Mailbox {
    cells: [u8; 120],
    ghost border: { Bordered cells },
    ghost coded: { Coded cells },
}

/// The cell of a square.
fn cell(square: Square) -> usize
    ensures place { result ≡ cell_of square.number }
    ensures low { 21 ≤ result }
    ensures high { result ≤ 98 }
{
    21 + 10 * usize::from(square.rank()) + usize::from(square.file())
}

/// The cells of the empty board: all filled with the border mark, and then the squares cleared.
fn cleared() -> [u8; 120]
    ensures bordered { Bordered result }
    ensures zero { (s : ℕ) → s < 64 → at_square result s ≡ 0 }
{
    let mut cells = [BORDER; 120];
    for square in (0..64).filter_map(Square::new) {
        cells[cell(square)] = 0;
    }
    cells
}

/// The leaps from a square to where a side's piece of a kind that attacks it by a step would stand; none for a kind that takes none.
fn leaps(by: Side, kind: Kind) -> &'static [u8]
    ensures leaps { result.now ≡ leaps_of by kind }
    ensures small { All (λ leap. leap ≤ 42) result.now }
{
    match (kind, by) {
        (Kind::Pawn, Side::White) => &WHITE_PAWN,
        (Kind::Pawn, Side::Black) => &BLACK_PAWN,
        (Kind::Knight, _) => &KNIGHT,
        (Kind::King, _) => &KING,
        (Kind::Bishop | Kind::Rook | Kind::Queen, _) => &[],
    }
}

/// Whether a code is a piece of the side that moves along a direction.
fn line_piece(by: Side, direction: usize, found: u8) -> bool
    ensures { result ≡ slides by direction found }
{
    let kind = if direction % 2 == 0 {
        Kind::Rook
    } else {
        Kind::Bishop
    };
    found == piece::code(by, Kind::Queen) || found == piece::code(by, kind)
}

impl Mailbox {
    /// The empty board.
    pub fn new() -> Mailbox
        ensures { codes_of result.cells ≡ empty_board }
    {
        Mailbox { cells: cleared() }
    }

    /// Whether a code stands at one of the leaps from a square.
    fn leaper(&self, square: Square, found: u8, leaps: &[u8]) -> bool
        requires { All (λ leap. leap ≤ 42) leaps.now }
        ensures { result ≡ leap_hit self.now.cells square.number found leaps.now }
    {
        let from = cell(square);
        leaps
            .iter()
            .any(|leap| self.cells[from + usize::from(*leap) - 21] == found)
    }

    /// Whether a piece of the side and of a kind attacks a square by a step.
    fn steps(&self, by: Side, kind: Kind, square: Square) -> bool
        ensures { result ≡ step_hit by (codes_of self.now.cells) kind (step by kind) square.number }
    {
        self.leaper(square, piece::code(by, kind), leaps(by, kind))
    }

    /// Whether a line piece of the side attacks a square from one direction: it is the first piece that a walk from the square meets.
    fn line(&self, by: Side, direction: usize, square: Square) -> bool
        requires { direction < 8 }
        ensures { result ≡ line_hit by (codes_of self.now.cells) direction square.number }
    {
        let step = usize::from(STEPS[direction]);
        let mut at = cell(square);
        // A loop: a chain would index a cell for each of the seven steps, and only the walk knows that it stops at the border.
        for _ in 0..7usize {
            at = at + step - 11;
            let found = self.cells[at];
            if found != 0 {
                return line_piece(by, direction, found);
            }
        }
        false
    }

    /// Whether a line piece of the side attacks a square.
    fn lines(&self, by: Side, square: Square) -> bool
        ensures { result ≡ lines_hit by (codes_of self.now.cells) square.number }
    {
        (0..8).any(|direction| self.line(by, direction, square))
    }

    /// Whether a side attacks a square. The bitboard has the same words: a trait over both would stand above the trait whose call this answers.
    fn attacks(&self, by: Side, square: Square) -> bool
        ensures { result ≡ attacks by (codes_of self.now.cells) square.number }
    {
        self.steps(by, Kind::Pawn, square)
            || self.steps(by, Kind::Knight, square)
            || self.steps(by, Kind::King, square)
            || self.lines(by, square)
    }
}

impl Board for Mailbox {
    ghost codes = { λ m. codes_of m.cells };

    ghost size = { λ b. length_codes b.cells };

    ghost small = { λ b. codes_small b.cells b.coded };

    fn clear(&mut self) {
        self.cells = cleared();
    }

    // 255 and not None, here and in `put`: a board's calls answer plain numbers.
    fn look(&self, square: u8) -> u8 {
        Square::new(square).map_or(255, |square| self.cells[cell(square)])
    }

    fn put(&mut self, square: u8, code: u8) -> u8 {
        match Square::new(square) {
            Some(square) if code <= 12 => {
                let at = cell(square);
                let mut cells = self.cells;
                let former = cells[at];
                cells[at] = code;
                self.cells = cells;
                former
            }
            _ => 255,
        }
    }

    fn next(&self, from: u8, code: u8) -> Option<u8> {
        (from..64).find(|&square| self.look(square) == code)
    }

    fn attacked(&self, by: Side, square: u8) -> bool {
        Square::new(square).is_some_and(|square| self.attacks(by, square))
    }
}
