//! FEN: a position as a line of text.
ghost use Rattle.std.specs.Prelude.{◌≡◌, ◌≤◌, length, IfOk, Some};
ghost use Rattle.std.specs.Option.{option_map, ok_or};
ghost use Rattle.faults.specs.declared.NotationFault.TheVariants.{NotFen};
ghost use Rattle.rules.specs.Parts.{Parts};
ghost use Rattle.laws.specs.Position.{position_parts};
ghost use Rattle.laws.specs.Setup.{parts};
ghost use Rattle.notation.specs.Fen.{fen as fen_of, fen_parts, ReadsBack, OnlyFen};
ghost use Rattle.notation.specs.Answers.{setup_parts, start_parts, start_answer, write_answer, written_over};

use crate::decimal;
use crate::fen::fields::spaced;
use board::Board;
use faults::{NotationFault, SheetFault};
use laws::position::Position;
use laws::setup::Setup;

mod fields;
mod lay;
mod placement;

// The parts that a text says, if it is FEN.
fn setup(text: &[u8]) -> Option<Setup>
    ensures { option_map parts result ≡ fen_parts text.now }
{
    let (codes, rest) = placement::placement(text)?;
    let (side, rest) = spaced(fields::side(rest))?;
    let (rights, rest) = spaced(fields::rights(rest))?;
    let (en_passant, rest) = spaced(fields::en_passant(rest))?;
    let (clock, rest) = spaced(decimal::front(rest))?;
    let (number, rest) = decimal::front(rest)?;
    rest.is_empty().then_some(Setup {
        codes,
        side,
        rights,
        en_passant,
        clock,
        number,
    })
}

/// Reads FEN. A clock or a move number above 65,535 is read as 65,535.
pub fn parse(text: &[u8]) -> Result<Setup, NotationFault>
    ensures value { setup_parts result ≡ ok_or (fen_parts text.now) NotFen }
    ensures exact { (p : Parts) → OnlyFen text.now p }
    ensures back { (p : Parts) → ReadsBack p }
{
    setup(text).ok_or(NotationFault::NotFen)
}

/// Reads the FEN of a game's start. The board, which is asked for attacks, is left as it was.
pub fn read<B: Board>(board: &mut B, text: &[u8]) -> Result<Position, SheetFault>
    ensures answer { start_parts result ≡ start_answer text.now }
    ensures exact { IfOk result (λ p. fen_of (position_parts p) ≡ text.now) }
    ensures list { B.codes board.new ≡ B.codes board.old }
{
    let setup = parse(text)?;
    let position = Position::new(board, setup)?;
    if setup.clock > 999 || !(1..=5000).contains(&setup.number) {
        return Err(SheetFault::Counters);
    }
    Ok(position)
}

/// Writes the FEN of a position in front of a buffer and answers its length. Where the buffer is too short, nothing is written.
pub fn write(position: &Position, out: &mut [u8]) -> Result<usize, SheetFault>
    ensures answer { result ≡ write_answer (fen_of (position_parts position.now)) out.old }
    ensures buffer { out.new ≡ written_over (fen_of (position_parts position.now)) out.old }
    ensures back { fen_parts (fen_of (position_parts position.now)) ≡ Some (position_parts position.now) }
    ensures few { length (fen_of (position_parts position.now)) ≤ 124 }
{
    let line = lay::line(&position.setup);
    if out.len() < line.len() {
        return Err(SheetFault::BufferShort);
    }
    out[..line.len()].copy_from_slice(&line);
    Ok(line.len())
}
