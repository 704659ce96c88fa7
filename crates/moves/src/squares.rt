//! Single squares: whose piece stands there.
ghost use Rattle.std.specs.Prelude.{◌≡◌, slice_index, slice_set};
ghost use Rattle.std.specs.Option.{option_map};
ghost use Rattle.rules.specs.Legal.{of_side};
ghost use Rattle.rules.specs.Move.{is_square};
ghost use Rattle.laws.specs.Setup.{square_number};

use board::side::Side;
use board::square::Square;

// Whether a code is a piece of the side.
pub(crate) fn is_own(side: Side, code: u8) -> bool
    ensures { result ≡ of_side side code }
{
    match side {
        Side::White => (1..=6).contains(&code),
        Side::Black => (7..=12).contains(&code),
    }
}

// The code on a square, 0 off the board. Apart from `Setup::code_on`, since a step ahead may leave the board.
pub(crate) fn code_on(codes: &[u8; 64], square: usize) -> u8
    ensures { result ≡ slice_index codes.now square }
{
    codes.get(square).copied().unwrap_or(0)
}

// Writes a code on a square; off the board nothing is written.
pub(crate) fn write(codes: &mut [u8; 64], square: usize, code: u8)
    ensures { codes.new ≡ slice_set codes.old square code }
{
    if square < 64 {
        codes[square] = code;
    }
}

// Whether a square is the en passant square.
pub(crate) fn is_crossed(en_passant: Option<Square>, square: Square) -> bool
    ensures { result ≡ is_square (option_map square_number en_passant) square.number }
{
    en_passant == Some(square)
}
