//! A table of move texts: each line has an answer, the FEN of a position and a move text, with `; ` between them. The answer is the number of
//! the refusal that the text gets there, or else the move that it spells: the squares it leaves and reaches and its promotion's letter, as e7e8q.
//! Writes each line whose text got another answer, and how many there were.
#![tactic(auto)]

use bitboard::Bitboard;
use board::Board;
use board::square::Square;
use mailbox::Mailbox;
use moves::action::{Move, Promotion};
use movetext::find;
use notation::fen;
use std::io::{BufRead, BufReader};

// What a line says: the move that its text spells, or the number of the refusal; the position's FEN; and the text.
#[derive(Drop)]
struct Case<'a> {
    answer: Result<Move, u8>,
    fen: &'a str,
    text: &'a str,
}

fn promotion(letter: u8) -> Option<Promotion> {
    match letter {
        b'n' => Some(Promotion::Knight),
        b'b' => Some(Promotion::Bishop),
        b'r' => Some(Promotion::Rook),
        b'q' => Some(Promotion::Queen),
        _ => None,
    }
}

// The move that a line's first field names, if it names one.
fn named(field: &[u8]) -> Option<Move> {
    let [from_file, from_rank, to_file, to_rank, rest @ ..] = field else {
        return None;
    };
    let promotion = match rest {
        [] => None,
        [letter] => Some(promotion(*letter)?),
        _ => return None,
    };
    Some(Move {
        from: Square::named(*from_file, *from_rank)?,
        to: Square::named(*to_file, *to_rank)?,
        promotion,
    })
}

// The answer that a line's first field says, if it says one.
fn answer(field: &[u8]) -> Option<Result<Move, u8>> {
    match field {
        [tens @ b'0'..=b'9', ones @ b'0'..=b'9'] => {
            Some(Err(10 * (*tens - b'0') + (*ones - b'0')))
        }
        _ => named(field).map(Ok),
    }
}

fn read(line: &str) -> Option<Case> {
    let (field, rest) = line.split_once("; ")?;
    let (fen, text) = rest.split_once("; ")?;
    Some(Case {
        answer: answer(field.as_bytes())?,
        fen,
        text,
    })
}

// Whether a case's text gets the case's answer on a board.
fn agrees<B: Board>(board: &mut B, case: &Case) -> bool {
    let Ok(position) = fen::read(board, case.fen.as_bytes()) else {
        return false;
    };
    find::answer(board, &position, case.text.as_bytes()).map_err(|fault| fault.number())
        == case.answer
}

// Whether a line's text gets the answer in front of it, on both makes of board.
fn passes(line: &str) -> bool {
    read(line).is_some_and(|case| {
        agrees(&mut Mailbox::new(), &case) && agrees(&mut Bitboard::new(), &case)
    })
}

fn main(rt: HostRuntime) -> anyhow::Result<()> {
    // Counted in the loop, which also reads and prints and may fail: `filter` and `count` would read the lines twice.
    let mut all = 0u32;
    let mut failed = 0u32;
    for line in BufReader::new(rt.alloc(), rt.stdin())?.lines(rt.alloc()) {
        let line = line?;
        all = all.saturating_add(1);
        if !passes(line.as_str()) {
            failed = failed.saturating_add(1);
            println!(rt; "{line}")?;
        }
    }
    println!(rt; "{all} texts, {failed} with another answer")?;
    Ok(())
}
