//! What a board means: a list of 64 codes, the attacks on it, and the five calls that every make of board answers.
//!
//! A square's number is 8 × (rank − 1) + file, with the files a to h as 0 to 7.
#![tactic(auto)]

ghost use Rattle.std.specs.Prelude.{◌≡◌, ℕ, ◌≤◌, List, length, slice_index};
ghost use Rattle.board.specs.Attack.{attacks};
ghost use Rattle.board.specs.Meaning.{empty_board, looked, put_answer, put_list, next_holding};

use side::Side;

pub mod check;
pub mod picture;
pub mod piece;
pub mod side;
pub mod square;

/// A board of any make.
pub trait Board {
    // the codes of the 64 squares
    ghost codes: { Self → List ℕ };

    /// Empties every square.
    fn clear(&mut self)
        ensures { codes self.new ≡ empty_board };

    /// The code on a square, 255 above 63.
    fn look(&self, square: u8) -> u8
        ensures { result ≡ looked (codes self.now) square };

    /// Writes a code and answers the former one; for a square above 63 or a code above 12 answers 255 and writes nothing.
    fn put(&mut self, square: u8, code: u8) -> u8
        ensures answer { result ≡ put_answer (codes self.old) square code }
        ensures list { codes self.new ≡ put_list (codes self.old) square code };

    /// The lowest square, from a given one up, that holds a code.
    fn next(&self, from: u8, code: u8) -> Option<u8>
        ensures { result ≡ next_holding (codes self.now) from code };

    /// Whether a side attacks a square; no above 63.
    fn attacked(&self, by: Side, square: u8) -> bool
        ensures { result ≡ attacks by (codes self.now) square };

    ghost size: { (b : Self) → length (codes b) ≡ 64 };

    ghost small: { (b : Self) (s : ℕ) → slice_index (codes b) s ≤ 12 };
}
