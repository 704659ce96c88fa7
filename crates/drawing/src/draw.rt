//! The parts of a drawing, each written behind what the buffer has. A struct around the one `Vec` would only forward to it.
ghost use Rattle.std.specs.Prelude.{◌≡◌, ◌+◌, ◌-◌, ◌<◌, ◌++◌, OnOk};
ghost use Rattle.laws.specs.Position.{position_parts};
ghost use Rattle.notation.specs.Decimal.{digits};
ghost use Rattle.notation.specs.Fen.{fen as fen_text};
ghost use Rattle.drawing.specs.Drawing.{rank_drawn, ranks_drawn, turn_drawn, place_drawn, position_drawn, fault_drawn};

use crate::play::play;
use board::check::in_check;
use board::side::Side;
use board::{Board, piece};
use faults::SheetFault;
use laws::position::Position;
use notation::decimal::Digits;
use notation::fen;
use std::alloc::AllocError;

// A rank, counted from 0, behind its number: by that, since its digit is drawn too.
fn rank(out: &mut Vec<u8>, codes: &[u8; 64], rank: u8) -> Result<(), AllocError>
    requires { rank < 8 }
    ensures { OnOk result (out.new.items ≡ out.old.items ++ rank_drawn codes.now rank) }
{
    out.extend_from_slice(&[b'1' + rank])?;
    let first = 8 * usize::from(rank);
    for code in &codes[first..first + 8] {
        out.extend_from_slice(&[b' ', piece::letter(*code)])?;
    }
    out.extend_from_slice(b"\n")
}

// The ranks from the eighth down.
fn ranks(out: &mut Vec<u8>, codes: &[u8; 64]) -> Result<(), AllocError>
    ensures { OnOk result (out.new.items ≡ out.old.items ++ ranks_drawn codes.now 8) }
{
    for index in (0..8u8).rev() {
        rank(out, codes, index)?;
    }
    Ok(())
}

// Whose move it is, and whether that side is in check. Not Display: a line of a drawing is not how a side is printed.
fn turn(side: Side, check: bool) -> &'static [u8]
    ensures { result.now ≡ turn_drawn side check }
{
    match (side, check) {
        (Side::White, false) => b"White to move\n",
        (Side::White, true) => b"White to move, in check\n",
        (Side::Black, false) => b"Black to move\n",
        (Side::Black, true) => b"Black to move, in check\n",
    }
}

// The FEN of a position.
fn fen_line(out: &mut Vec<u8>, position: &Position) -> Result<(), AllocError>
    ensures { OnOk result (out.new.items ≡ out.old.items ++ fen_text (position_parts position.now)) }
{
    // An array and a length, as `fen::write` has them. The longest FEN fits, so the write does not fail.
    let mut line = [0; 124];
    let length = fen::write(position, &mut line).unwrap();
    out.extend_from_slice(&line[..length])
}

// A position itself, with the board left to show it.
fn place<B: Board>(out: &mut Vec<u8>, board: &mut B, position: &Position) -> Result<(), AllocError>
    ensures { OnOk result (out.new.items ≡ out.old.items ++ place_drawn (position_parts position.now)) }
{
    position.show(board);
    let side = position.setup.side;
    ranks(out, &position.setup.codes)?;
    out.extend_from_slice(b"  a b c d e f g h\n")?;
    out.extend_from_slice(turn(side, in_check(board, side)))?;
    fen_line(out, position)?;
    out.extend_from_slice(b"\n")
}

/// A position and how play goes on.
pub(crate) fn position<B: Board>(
    out: &mut Vec<u8>,
    board: &mut B,
    position: &Position,
) -> Result<(), AllocError>
    ensures { OnOk result (out.new.items ≡ out.old.items ++ position_drawn (position_parts position.now)) }
{
    place(out, board, position)?;
    play(out, board, position)?;
    out.extend_from_slice(b"\n\n")
}

// A word, and behind it a number in decimal digits.
#[inline]
fn counted(out: &mut Vec<u8>, word: &[u8], number: u64) -> Result<(), AllocError>
    ensures { OnOk result (out.new.items ≡ out.old.items ++ (word.now ++ digits number)) }
{
    out.extend_from_slice(word)?;
    out.extend_from_slice(Digits::of(number).text())
}

/// A fault of a line that starts at a byte of the input and has a number.
#[tactic(auto, using(std::proofs::Common::append_assoc), unfolding(crate::specs::Drawing::fault_drawn))]
pub(crate) fn fault(
    out: &mut Vec<u8>,
    fault: SheetFault,
    byte: usize,
    line: usize,
) -> Result<(), AllocError>
    ensures { OnOk result (out.new.items ≡ out.old.items ++ fault_drawn fault byte line) }
{
    counted(out, b"% fault ", u64::from(fault.number()))?;
    counted(out, b" layer ", u64::from(fault.layer()))?;
    counted(out, b" byte ", byte as u64)?;
    counted(out, b" line ", line as u64)?;
    out.extend_from_slice(b"\n\n")
}
