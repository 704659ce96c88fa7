//! Twelve words as a board: what they say of a square and of a code, and a write.
ghost use Rattle.std.specs.Prelude.{◌≡◌, ℕ, suc, ◌<◌, ◌≤◌, ◌≢◌, not, ◌==◌, slice_index, slice_set};
ghost use Rattle.rays.specs.Sets.{SetOf};
ghost use Rattle.bitboard.specs.Codes.{code_at, codes_of};

use crate::Bitboard;
use board::square::Square;
use rays::bits;

impl Bitboard {
    /// The code on a square: that of the word that has it, or 0.
    pub(crate) fn holder(&self, square: Square) -> u8
        ensures { result ≡ code_at self.now.words square.number }
    {
        self.words
            .iter()
            .position(|word| bits::contains(*word, square.number()))
            .map_or(0, |place| place as u8 + 1)
    }

    /// The squares that hold a piece.
    pub(crate) fn occupied(&self) -> u64
        ensures { SetOf (λ s. not (slice_index (codes_of self.now.words) s == 0)) result }
    {
        self.words.iter().fold(0, |all, word| all | *word)
    }

    /// The squares that hold a code.
    pub(crate) fn squares(&self, code: u8) -> u64
        ensures { SetOf (λ s. slice_index (codes_of self.now.words) s == code) result }
    {
        match code {
            0 => !self.occupied(),
            1..=12 => self.words[usize::from(code) - 1],
            _ => 0,
        }
    }

    /// Writes a code on a square and answers the former one.
    pub(crate) fn write(&mut self, square: Square, code: u8) -> u8
        requires { code ≤ 12 }
        ensures former { result ≡ slice_index (codes_of self.old.words) square.number }
        ensures list { codes_of self.new.words ≡ slice_set (codes_of self.old.words) square.number code }
    {
        let former = self.holder(square);
        change(&mut self.words, former, square, bits::without);
        change(&mut self.words, code, square, bits::with);
        former
    }
}

/// Changes the word of a code by a step at a square; code 0 has no word.
fn change<F: FnOnce(u64, u8) -> u64>(words: &mut [u64; 12], code: u8, square: Square, step: F)
    requires small { code ≤ 12 }
    requires callable { F.IsAlwaysCallable step }
    ensures chosen { (i : ℕ) → i < 12 → code ≡ suc i → F.post step (slice_index words.old i) square.number (slice_index words.new i) }
    ensures others { (i : ℕ) → i < 12 → code ≢ suc i → slice_index words.new i ≡ slice_index words.old i }
{
    if let Some(place) = usize::from(code).checked_sub(1) {
        words[place] = step(words[place], square.number());
    }
}
