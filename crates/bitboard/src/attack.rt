//! Attacks on a square, by the words.
ghost use Rattle.std.specs.Prelude.{◌≡◌, ◌||◌};
ghost use Rattle.board.specs.declared.piece.Kind.TheVariants.{Queen};
ghost use Rattle.board.specs.Piece.{holds};
ghost use Rattle.board.specs.Attack.{step, attacks};
ghost use Rattle.board.specs.Hits.{step_hit, lines_hit};
ghost use Rattle.rays.specs.Sets.{SetOf};
ghost use Rattle.bitboard.specs.Codes.{codes_of};

use crate::Bitboard;
use board::piece;
use board::piece::Kind;
use board::side::Side;
use board::square::Square;
use rays::bits;

impl Bitboard {
    /// The squares of a side's pieces of a kind.
    fn pieces(&self, by: Side, kind: Kind) -> u64
        ensures { SetOf (holds (codes_of self.now.words) by kind) result }
    {
        self.squares(piece::code(by, kind))
    }

    /// Whether a piece of the side and of a kind attacks a square by a step.
    fn steps(&self, by: Side, kind: Kind, square: Square) -> bool
        ensures { result ≡ step_hit by (codes_of self.now.words) kind (step by kind) square.number }
    {
        bits::meet(
            self.pieces(by, kind),
            rays::leapers(by, kind, square.number()),
        )
    }

    /// The squares of a side's queens and of its pieces of a kind.
    fn movers(&self, by: Side, kind: Kind) -> u64
        ensures { SetOf (λ s. holds (codes_of self.now.words) by Queen s || holds (codes_of self.now.words) by kind s) result }
    {
        self.pieces(by, Kind::Queen) | self.pieces(by, kind)
    }

    /// Whether a line piece of the side attacks a square: it is the first piece that stands beyond the square in its direction.
    fn lines(&self, by: Side, square: Square) -> bool
        ensures { result ≡ lines_hit by (codes_of self.now.words) square.number }
    {
        let occupied = self.occupied();
        let straight = self.movers(by, Kind::Rook);
        let diagonal = self.movers(by, Kind::Bishop);
        (0..8).any(|direction| {
            let sliders = if direction % 2 == 0 {
                straight
            } else {
                diagonal
            };
            rays::first_among(direction, square.number(), occupied, sliders)
        })
    }

    /// Whether a side attacks a square. The mailbox has the same words: a trait over both would stand above the trait whose call this answers.
    pub(crate) fn attacks(&self, by: Side, square: Square) -> bool
        ensures { result ≡ attacks by (codes_of self.now.words) square.number }
    {
        self.steps(by, Kind::Pawn, square)
            || self.steps(by, Kind::Knight, square)
            || self.steps(by, Kind::King, square)
            || self.lines(by, square)
    }
}
