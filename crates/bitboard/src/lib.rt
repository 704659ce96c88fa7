//! A board of twelve words of 64 bits, one for each code from 1 to 12: bit n of a word says that its piece stands on square n.
#![tactic(auto)]

ghost use Rattle.std.specs.Prelude.{◌≡◌};
ghost use Rattle.board.specs.Meaning.{empty_board};
ghost use Rattle.bitboard.specs.Codes.{codes_of, Apart};
ghost use Rattle.bitboard.specs.CodeLaws.{length_codes, codes_small};

use board::Board;
use board::side::Side;
use board::square::Square;
use rays::bits;

mod attack;
mod words;

/// A board as words.
#[derive(Clone, Copy, PartialEq, Eq, Debug)]
pub struct Bitboard {
    words: [u64; 12],
    ghost apart: { Apart words },
}

impl Bitboard {
    /// The empty board.
    pub fn new() -> Bitboard
        ensures { codes_of result.words ≡ empty_board }
    {
        Bitboard { words: [0; 12] }
    }
}

impl Board for Bitboard {
    ghost codes = { λ b. codes_of b.words };

    ghost size = { λ b. length_codes b.words };

    ghost small = { λ b. codes_small b.words };

    fn clear(&mut self) {
        let words = [0; 12];
        self.words = words;
    }

    // 255 and not None, here and in `put`: a board's calls answer plain numbers.
    fn look(&self, square: u8) -> u8 {
        Square::new(square).map_or(255, |square| self.holder(square))
    }

    fn put(&mut self, square: u8, code: u8) -> u8 {
        match Square::new(square) {
            Some(square) if code <= 12 => self.write(square, code),
            _ => 255,
        }
    }

    fn next(&self, from: u8, code: u8) -> Option<u8> {
        bits::lowest(bits::upward(self.squares(code), from))
    }

    fn attacked(&self, by: Side, square: u8) -> bool {
        Square::new(square).is_some_and(|square| self.attacks(by, square))
    }
}
