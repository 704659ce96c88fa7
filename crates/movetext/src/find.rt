//! The legal move that a move text matches.
ghost use Rattle.std.specs.Prelude.{◌≡◌, true, Ok};
ghost use Rattle.laws.specs.Position.{position_parts};
ghost use Rattle.rules.specs.Legal.{legal};
ghost use Rattle.rules.specs.Move as rules;
ghost use Rattle.san.specs.Said.{castling as castling_said, matching, only};
ghost use Rattle.san.specs.Text.{move_answer};
ghost use Rattle.san.specs.Sources.{castling_move as castling_of};
ghost use Rattle.san.specs.Written.{san};
ghost use Rattle.moves.specs.Action.{plain};
ghost use Rattle.movetext.specs.Said.{is_queenside, piece_said, text_said};
ghost use Rattle.movetext.specs.Found.{found, marks_agree};

use crate::read::read;
use crate::text::{MoveText, PieceText};
use board::Board;
use board::piece::Kind;
use board::side::Side;
use board::square::Square;
use faults::LawsFault;
use laws::position::Position;
use moves::action::Move;
use moves::legal::is_legal;
use moves::sort::moves_rook_too;
use moves::source::sources;
use rules::home::Home;
use rules::rights::Wing;

// Whether the origin marks of a text, as far as they are given, agree with a square. A pawn's text without a file means the target's.
fn agrees(text: &PieceText, from: Square) -> bool
    ensures { result ≡ marks_agree text.now from.number }
{
    let file = match text.file {
        Some(file) => file == from.file(),
        None => text.kind != Kind::Pawn || from.file() == text.to.file(),
    };
    file && text.rank.is_none_or(|rank| rank == from.rank())
}

// The one legal move of a piece that a text matches.
fn piece<B: Board>(board: &mut B, position: &Position, text: &PieceText) -> Result<Move, LawsFault>
    ensures answer { found result ≡ only (matching (position_parts position.now) (piece_said text.now)) }
    ensures list { B.codes board.new ≡ (position_parts position.now).codes }
{
    let to = text.to;
    let promotion = text.promotion;
    let goes = sources(board, position, text.kind, to, promotion);
    let mut one = None;
    for (number, &goes) in goes.iter().enumerate() {
        let Some(from) = Square::new(number as u8) else {
            continue;
        };
        if goes && agrees(text, from) {
            if one.is_some() {
                return Err(LawsFault::SeveralMatch);
            }
            one = Some(Move {
                from,
                to,
                promotion,
            });
        }
    }
    one.ok_or(LawsFault::NoMatch)
}

// The castling move of a side to a wing.
fn castling_move(side: Side, wing: Wing) -> Move
    ensures { plain result ≡ castling_of side (is_queenside wing) }
{
    let king = Home::of(side).king;
    let to = match wing {
        Wing::Kingside => king.number() + 2,
        Wing::Queenside => king.number() - 2,
    };
    Move {
        from: king,
        to: Square::new(to).unwrap(),
        promotion: None,
    }
}

// The castling move to a wing, if it is legal.
fn castling<B: Board>(board: &mut B, position: &Position, wing: Wing) -> Result<Move, LawsFault>
    ensures answer { found result ≡ only (matching (position_parts position.now) (castling_said (is_queenside wing))) }
    ensures list { B.codes board.new ≡ (position_parts position.now).codes }
{
    let m = castling_move(position.setup.side, wing);
    if is_legal(board, position, m) && moves_rook_too(&position.setup, m) {
        Ok(m)
    } else {
        Err(LawsFault::NoMatch)
    }
}

/// The one legal move that a move text matches: no match, or several, else.
pub fn find<B: Board>(board: &mut B, position: &Position, text: MoveText) -> Result<Move, LawsFault>
    ensures answer { found result ≡ only (matching (position_parts position.now) (text_said text)) }
    ensures list { B.codes board.new ≡ (position_parts position.now).codes }
{
    match text {
        MoveText::Castling(wing) => castling(board, position, wing),
        MoveText::Piece(text) => piece(board, position, &text),
    }
}

/// The one legal move that a text spells at a position: not a move text, no match, or several, else.
pub fn answer<B: Board>(board: &mut B, position: &Position, text: &[u8]) -> Result<Move, LawsFault>
    ensures answer { found result ≡ move_answer (position_parts position.now) text.now }
    ensures back { (m : rules.Move) → legal (position_parts position.now) m ≡ true → move_answer (position_parts position.now) (san (position_parts position.now) m) ≡ Ok m }
    ensures list { B.codes board.new ≡ (position_parts position.now).codes }
{
    position.show(board);
    find(board, position, read(text)?)
}
