//! Pictures of a board: its 64 codes as an array.
ghost use Rattle.std.specs.Prelude.{◌≡◌};
ghost use Rattle.board.specs.Meaning.{Shown, put_below};

use crate::Board;
use std::array::from_fn;

/// The codes that a board shows.
pub fn picture<B: Board>(board: &B) -> [u8; 64]
    ensures { result ≡ B.codes board.now }
{
    from_fn(|square| board.look(square as u8))
}

/// Puts each code of a picture on its square; what is no code leaves its square as it was.
pub fn show<B: Board>(board: &mut B, picture: &[u8; 64])
    ensures list { B.codes board.new ≡ put_below 64 (B.codes board.old) picture.now }
    ensures whole { Shown picture.now → B.codes board.new ≡ picture.now }
{
    for (square, &code) in picture.iter().enumerate() {
        if board.look(square as u8) != code {
            board.put(square as u8, code);
        }
    }
}
