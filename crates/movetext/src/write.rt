//! SAN, written.
ghost use Rattle.std.specs.Prelude.{◌≡◌, ◌+◌, ◌<◌, ◌≤◌, ◌++◌, Bool, IfSome, Some, None, map, option_map, if◌then◌else◌};
ghost use Rattle.rules.specs.Legal.{legal};
ghost use Rattle.rules.specs.Move.{is_capture};
ghost use Rattle.san.specs.Theorems.{MatchesAlone, TellsApart};
ghost use Rattle.std.specs.Option.{option_to_list};
ghost use Rattle.arrayvec.specs.ArrayVec.{array_vec_len};
ghost use Rattle.std.specs.List.{range_with_len};
ghost use Rattle.board.specs.Geometry.{file as file_of, rank as rank_of};
ghost use Rattle.laws.specs.Position.{position_parts};
ghost use Rattle.moves.specs.Action.{promotion_number, plain};
ghost use Rattle.san.specs.Written.{kind_text, file_text, rank_text, promotion_text, said_text, suffix as suffix_of, san as san_of};
ghost use Rattle.san.specs.Said.{castling, going, is_queenside, said, kind, kind_of, rival_on, rival, rival_on_file, rival_on_rank, origin_mark, marked_file, marked_rank};

use arrayvec::ArrayVec;
use board::Board;
use board::check::in_check;
use board::piece::Kind;
use board::square::Square;
use laws::position::Position;
use moves::action::{Move, Promotion};
use moves::legal::{after, can_move, is_legal};
use moves::sort::{moves_rook_too, takes};

/// The letters of the kinds in SAN, by their numbers: none for 0, and a pawn's is not written.
const LETTERS: [u8; 7] = *b"  NBRQK";

// Whether a piece like the one that moves goes legally from another square to the same target; the board is left as it was.
#[tactic(auto, unfolding(san::specs::Said::rival_on))]
fn is_rival<B: Board>(board: &mut B, position: &Position, m: Move, from: Square) -> bool
    requires { B.codes board.old ≡ (position_parts position.now).codes }
    ensures answer { result ≡ rival_on (position_parts position.now) (plain m) from.number }
    ensures list { B.codes board.new ≡ (position_parts position.now).codes }
{
    let setup = &position.setup;
    let other = Move { from, ..m };
    setup.code_on(from) == setup.code_on(m.from)
        && from != m.from
        && is_legal(board, position, other)
}

// For each square, whether a rival goes from it.
fn rivals<B: Board>(board: &mut B, position: &Position, m: Move) -> [bool; 64]
    ensures answer { result ≡ map (rival_on (position_parts position.now) (plain m)) (range_with_len 0 64) }
    ensures list { B.codes board.new ≡ (position_parts position.now).codes }
{
    position.show(board);
    let mut found = [false; 64];
    // A loop: the closure of a chain may not change the board that it tries moves on.
    for number in 0..64u8 {
        if let Some(from) = Square::new(number) {
            found[from.index()] = is_rival(board, position, m, from);
        }
    }
    found
}

// Whether a move has a rival, one on its file, and one on its rank.
fn rival_lines<B: Board>(board: &mut B, position: &Position, m: Move) -> (bool, bool, bool)
    ensures any { result.0 ≡ rival (position_parts position.now) (plain m) }
    ensures file { result.1 ≡ rival_on_file (position_parts position.now) (plain m) }
    ensures rank { result.2 ≡ rival_on_rank (position_parts position.now) (plain m) }
    ensures list { B.codes board.new ≡ (position_parts position.now).codes }
{
    let rivals = rivals(board, position, m);
    let from = m.from.index();
    let any = (0..64usize).any(|square| rivals[square]);
    let on_file = (0..64usize).any(|square| square % 8 == from % 8 && rivals[square]);
    let on_rank = (0..64usize).any(|square| square / 8 == from / 8 && rivals[square]);
    (any, on_file, on_rank)
}

// The origin mark, as a file and a rank.
#[tactic(auto, unfolding(san::specs::Said::origin_mark, san::specs::Said::piece_mark))]
fn origin<B: Board>(board: &mut B, position: &Position, m: Move) -> (Option<u8>, Option<u8>)
    ensures file { result.0 ≡ marked_file (origin_mark (position_parts position.now) (plain m)) (file_of m.from.number) }
    ensures rank { result.1 ≡ marked_rank (origin_mark (position_parts position.now) (plain m)) (rank_of m.from.number) }
    ensures list { B.codes board.new ≡ (position_parts position.now).codes }
{
    position.show(board);
    let setup = &position.setup;
    let file = m.from.file();
    let rank = m.from.rank();
    if setup.holds(setup.side, Kind::Pawn, m.from) {
        return (takes(setup, m).then_some(file), None);
    }
    match rival_lines(board, position, m) {
        (false, _, _) => (None, None),
        (true, false, _) => (Some(file), None),
        (true, true, false) => (None, Some(rank)),
        (true, true, true) => (Some(file), Some(rank)),
    }
}

// The letter of a kind by its number, in SAN; none for a pawn.
#[tactic(auto, unfolding(san::specs::Written::kind_text))]
fn letter(kind: u8) -> Option<u8>
    ensures { option_to_list result ≡ kind_text kind }
{
    (kind != 1).then(|| LETTERS.get(usize::from(kind)).copied().unwrap_or(0))
}

// The number of the kind of a code.
fn kind(code: u8) -> u8
    ensures { result ≡ kind_of code }
{
    if code <= 6 { code } else { code - 6 }
}

// + for check and # for mate, at the position that a move led to.
#[tactic(auto, unfolding(san::specs::Written::suffix))]
fn suffix<B: Board>(board: &mut B, position: &Position) -> Option<u8>
    ensures answer { option_to_list result ≡ suffix_of (position_parts position.now) }
    ensures list { B.codes board.new ≡ (position_parts position.now).codes }
{
    position.show(board);
    if !in_check(board, position.setup.side) {
        return None;
    }
    if can_move(board, position) {
        Some(b'+')
    } else {
        Some(b'#')
    }
}

// A byte behind what is written, if there is one.
fn add<const N: usize>(text: &mut ArrayVec<u8, N>, byte: Option<u8>)
    requires { array_vec_len text.old < N }
    ensures items { text.new.items ≡ text.old.items ++ option_to_list byte }
    ensures len { array_vec_len text.new ≤ array_vec_len text.old + 1 }
{
    if let Some(byte) = byte {
        text.push(byte);
    }
}

// The letter of a file, if there is one.
fn file_letter(file: Option<u8>) -> Option<u8>
    requires { IfSome file (λ f. f < 8) }
    ensures { option_to_list result ≡ file_text file }
{
    let file = file?;
    Some(b'a' + file)
}

// The digit of a rank, if there is one.
fn rank_digit(rank: Option<u8>) -> Option<u8>
    requires { IfSome rank (λ r. r < 8) }
    ensures { option_to_list result ≡ rank_text rank }
{
    let rank = rank?;
    Some(b'1' + rank)
}

// = and the letter of the kind that a pawn becomes, behind what is written.
fn add_promotion(text: &mut ArrayVec<u8, 9>, promotion: Option<Promotion>)
    requires { array_vec_len text.old ≤ 6 }
    ensures items { text.new.items ≡ text.old.items ++ promotion_text (promotion_number promotion) }
    ensures len { array_vec_len text.new ≤ 8 }
{
    if let Some(promotion) = promotion {
        text.push(b'=');
        add(text, letter(Kind::from(promotion).number()));
    }
}

// Castling, to the queen's side down the files.
#[tactic(auto, unfolding(san::specs::Written::said_text))]
fn castling_text(m: Move) -> ArrayVec<u8, 9>
    ensures items { (x : Bool) → result.items ≡ said_text (castling (is_queenside (plain m))) x }
    ensures len { array_vec_len result ≤ 8 }
{
    let mut text = ArrayVec::new();
    text.push(b'O');
    text.push(b'-');
    text.push(b'O');
    if m.to.number() < m.from.number() {
        text.push(b'-');
        text.push(b'O');
    }
    text
}

// A move that is no castling: letter, origin mark, x for a capture, target, promotion.
#[tactic(auto, unfolding(san::specs::Said::origin_mark, san::specs::Written::said_text))]
fn going_text<B: Board>(board: &mut B, position: &Position, m: Move) -> ArrayVec<u8, 9>
    ensures items { result.items ≡ said_text (going (kind (position_parts position.now) (plain m)) (marked_file (origin_mark (position_parts position.now) (plain m)) (file_of m.from.number)) (marked_rank (origin_mark (position_parts position.now) (plain m)) (rank_of m.from.number)) m.to.number (promotion_number m.promotion)) (is_capture (position_parts position.now) (plain m)) }
    ensures len { array_vec_len result ≤ 8 }
    ensures list { B.codes board.new ≡ (position_parts position.now).codes }
{
    let (file, rank) = origin(board, position, m);
    let setup = &position.setup;
    let mut text = ArrayVec::new();
    add(&mut text, letter(kind(setup.code_on(m.from))));
    add(&mut text, file_letter(file));
    add(&mut text, rank_digit(rank));
    add(&mut text, takes(setup, m).then_some(b'x'));
    text.push(b'a' + m.to.file());
    text.push(b'1' + m.to.rank());
    add_promotion(&mut text, m.promotion);
    text
}

// A move without the suffix.
#[tactic(auto, unfolding(san::specs::Said::said))]
fn spelled<B: Board>(board: &mut B, position: &Position, m: Move) -> ArrayVec<u8, 9>
    ensures items { result.items ≡ said_text (said (position_parts position.now) (plain m)) (is_capture (position_parts position.now) (plain m)) }
    ensures len { array_vec_len result ≤ 8 }
    ensures list { B.codes board.new ≡ (position_parts position.now).codes }
{
    if moves_rook_too(&position.setup, m) {
        position.show(board);
        castling_text(m)
    } else {
        going_text(board, position, m)
    }
}

/// The SAN of a legal move, or none if the move is not legal.
#[tactic(auto, using(san::proofs::Sans::tells_apart), unfolding(san::specs::Written::san))]
pub fn san<B: Board>(board: &mut B, position: &Position, m: Move) -> Option<ArrayVec<u8, 9>>
    ensures answer { option_map (λ text. text.items) result ≡ (if legal (position_parts position.now) (plain m) then Some (san_of (position_parts position.now) (plain m)) else None) }
    ensures matches_alone { MatchesAlone }
    ensures tells_apart { TellsApart }
    ensures list { B.codes board.new ≡ (position_parts position.now).codes }
{
    let next = after(board, position, m)?;
    let suffix = suffix(board, &next);
    let mut text = spelled(board, position, m);
    add(&mut text, suffix);
    Some(text)
}
