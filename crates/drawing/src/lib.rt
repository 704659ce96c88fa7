//! Positions drawn as text: what is drawn of each line of FEN of an input.
#![tactic(auto)]

ghost use Rattle.std.specs.Prelude.{◌≡◌, ◌++◌, IfOk, OnOk, ◌==◌};
ghost use Rattle.std.specs.List.{before_first, after_first};
ghost use Rattle.drawing.specs.Drawing.{input_drawn, line_drawn, line_feed};

use board::Board;
use notation::fen;
use std::alloc::{AllocError, Global};

mod draw;
mod play;

// Draws what a line says, which starts at a byte of the input and has a number. A struct for these two would serve the fault alone.
fn draw_line<B: Board>(
    out: &mut Vec<u8>,
    board: &mut B,
    text: &[u8],
    byte: usize,
    line: usize,
) -> Result<(), AllocError>
    ensures { OnOk result (out.new.items ≡ out.old.items ++ line_drawn text.now byte line) }
{
    match fen::read(board, text) {
        Ok(position) => draw::position(out, board, &position),
        Err(fault) => draw::fault(out, fault, byte, line),
    }
}

// The first line of an input, and what stands behind it; the last line may lack its line feed.
fn first_line(input: &[u8]) -> (&[u8], &[u8])
    ensures line { result.0.now ≡ before_first (λ b. b == line_feed) input.now }
    ensures behind { result.1.now ≡ after_first (λ b. b == line_feed) input.now }
{
    match input.iter().position(|byte| *byte == b'\n') {
        Some(at) => (&input[..at], &input[at + 1..]),
        None => (input, &[]),
    }
}

/// What is drawn of an input, line by line: the position of a line of FEN, or the fault that the line has.
pub fn draw_input<B: Board + Drop>(
    heap: Global,
    mut board: B,
    input: &[u8],
) -> Result<Vec<u8>, AllocError>
    ensures { IfOk result (λ out. out.items ≡ input_drawn input.now) }
{
    let mut out = Vec::new(heap);
    let mut rest = input;
    let mut line = 1;
    // Not a `for` over `split_inclusive`: an invariant over an iterator that holds a closure is refused in a generic function.
    while !rest.is_empty() {
        let byte = input.len() - rest.len();
        let (text, behind) = first_line(rest);
        draw_line(&mut out, &mut board, text, byte, line)?;
        rest = behind;
        line += 1;
    }
    Ok(out)
}
