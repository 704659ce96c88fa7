//! Move text read, from its end: there each byte tells by itself which part it belongs to.
ghost use Rattle.std.specs.Prelude.{◌≡◌, ◌+◌, ◌-◌, ◌*◌, ◌≤◌, ◌&&◌, ◌↔◌, if◌then◌else◌, reverse, IsTrue, Some, None, MatchOption};
ghost use Rattle.std.specs.Option.{option_map, ok_or};
ghost use Rattle.faults.specs.declared.NotationFault.TheVariants.{NotMoveText};
ghost use Rattle.moves.specs.Action.{promotion_number};
ghost use Rattle.san.specs.Text.{is_file as names_file, is_rank as names_rank, letter_kind, is_promotion, without_first, first_says, read_kind, read_origin, read_target, read_promotion, read_text};
ghost use Rattle.movetext.specs.Castling.{Castles, Ends};
ghost use Rattle.movetext.specs.Said.{piece_said, read_said, kind_number};
ghost use Rattle.movetext.specs.Marks.{is_one_of, is_mark};

use crate::text::{MoveText, PieceText};
use board::piece::Kind;
use board::square::Square;
use faults::NotationFault;
use moves::action::Promotion;
use rules::rights::Wing;

// The kind that a letter stands for in move text. Not TryFrom: in FEN a letter says a side as well.
fn letter(byte: u8) -> Option<Kind>
    ensures { kind_number result ≡ letter_kind byte }
{
    match byte {
        b'N' => Some(Kind::Knight),
        b'B' => Some(Kind::Bishop),
        b'R' => Some(Kind::Rook),
        b'Q' => Some(Kind::Queen),
        b'K' => Some(Kind::King),
        _ => None,
    }
}

// What a pawn becomes by the letter behind its target: four of the five letters, and so apart from `letter` and its types.
fn promotion(byte: u8) -> Option<Promotion>
    ensures { option_map (λ p. promotion_number (Some p)) result ≡ (if is_promotion byte then Some (letter_kind byte) else None) }
{
    match byte {
        b'N' => Some(Promotion::Knight),
        b'B' => Some(Promotion::Bishop),
        b'R' => Some(Promotion::Rook),
        b'Q' => Some(Promotion::Queen),
        _ => None,
    }
}

// A text without a mark at its end.
fn without_last<'a>(text: &'a [u8], marks: &[u8]) -> &'a [u8]
    ensures { reverse result.now ≡ without_first (is_one_of marks.now) (reverse text.now) }
{
    match text.split_last() {
        Some((byte, front)) if marks.contains(byte) => front,
        _ => text,
    }
}

// What a text's end says, a file or a rank, counted from the first of the eight, and the text without it.
fn last_mark(text: &[u8], first: u8) -> (Option<u8>, &[u8])
    requires { first ≤ 248 }
    ensures says { result.0 ≡ first_says (is_mark first) first (reverse text.now) }
    ensures rest { reverse result.1.now ≡ without_first (is_mark first) (reverse text.now) }
{
    match text.split_last() {
        Some((byte, front)) if (first..=first + 7).contains(byte) => (Some(*byte - first), front),
        _ => (None, text),
    }
}

// The kind: a pawn for no text, else a piece by its letter.
fn piece_kind(text: &[u8]) -> Option<Kind>
    ensures { kind_number result ≡ read_kind (reverse text.now) }
{
    match text {
        [] => Some(Kind::Pawn),
        [byte] => letter(*byte),
        _ => None,
    }
}

// The move of a piece to a target, by the text before the target.
#[tactic(auto, using(crate::proofs::Reading::without_capture), unfolding(san::specs::Text::read_origin))]
fn origin(text: &[u8], to: Square, promotion: Option<Promotion>) -> Option<PieceText>
    ensures { option_map piece_said result ≡ read_origin (promotion_number promotion) to.number (reverse text.now) }
{
    let (rank, before_rank) = last_mark(without_last(text, b"x"), b'1');
    let (file, before_file) = last_mark(before_rank, b'a');
    let kind = piece_kind(before_file)?;
    Some(PieceText {
        kind,
        file,
        rank,
        to,
        promotion,
    })
}

// The move of a piece, by a text that its target ends.
#[tactic(auto, unfolding(san::specs::Text::read_target))]
fn target(text: &[u8], promotion: Option<Promotion>) -> Option<PieceText>
    ensures { option_map piece_said result ≡ read_target (promotion_number promotion) (reverse text.now) }
{
    let (rank, before_rank) = text.split_last()?;
    let (file, before_file) = before_rank.split_last()?;
    let to = Square::named(*file, *rank)?;
    origin(before_file, to, promotion)
}

// The move of a piece, by a text without + or # at its end.
#[tactic(auto, using(crate::proofs::Reading::without_equals), unfolding(san::specs::Text::read_promotion))]
fn piece(text: &[u8]) -> Option<PieceText>
    ensures { option_map piece_said result ≡ read_promotion (reverse text.now) }
{
    let (byte, front) = text.split_last()?;
    match promotion(*byte) {
        Some(chosen) => target(without_last(front, b"="), Some(chosen)),
        None => target(text, None),
    }
}

// Whether a text is nothing, + or #.
fn ends(text: &[u8]) -> bool
    ensures { IsTrue result ↔ Ends text.now }
{
    matches!(text, [] | [b'+' | b'#'])
}

// The castling side that a text spells, with its + or #.
fn castling(text: &[u8]) -> Option<Wing>
    ensures { MatchOption result ((w : Wing) → Castles w text.now → ⊥) (λ w. Castles w text.now) }
{
    match text {
        [b'O', b'-', b'O', b'-', b'O', rest @ ..] | [b'0', b'-', b'0', b'-', b'0', rest @ ..]
            if ends(rest) => { Some(Wing::Queenside) }
        [b'O', b'-', b'O', rest @ ..] | [b'0', b'-', b'0', rest @ ..] if ends(rest) => {
            Some(Wing::Kingside)
        }
        _ => None,
    }
}

/// What a move text says, or the fault that it is none.
#[tactic(auto, using(crate::proofs::Reading::without_check, crate::proofs::Castling::castles_read, crate::proofs::Castling::piece_read))]
pub fn read(text: &[u8]) -> Result<MoveText, NotationFault>
    ensures { read_said result ≡ ok_or (read_text text.now) NotMoveText }
{
    if let Some(wing) = castling(text) {
        return Ok(MoveText::Castling(wing));
    }
    piece(without_last(text, b"+#"))
        .map(MoveText::Piece)
        .ok_or(NotationFault::NotMoveText)
}
