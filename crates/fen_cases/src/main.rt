//! A table of FEN texts: each line has the number of the refusal that a text gets, 00 where it is accepted, a space and the text.
//! Writes each text that got another answer, and how many there were.
#![tactic(auto)]

use bitboard::Bitboard;
use board::Board;
use mailbox::Mailbox;
use notation::fen;
use std::io::{BufRead, BufReader};

// The number that a text gets on a board, 0 where it is accepted.
fn number<B: Board>(board: &mut B, text: &[u8]) -> u8 {
    fen::read(board, text)
        .err()
        .map_or(0, |fault| fault.number())
}

// Whether a line's text gets the number in front of it, on both makes of board.
fn passes(line: &[u8]) -> bool {
    let [tens @ b'0'..=b'9', ones @ b'0'..=b'9', b' ', text @ ..] = line else {
        return false;
    };
    let wanted = 10 * (*tens - b'0') + (*ones - b'0');
    number(&mut Mailbox::new(), text) == wanted && number(&mut Bitboard::new(), text) == wanted
}

fn main(rt: HostRuntime) -> anyhow::Result<()> {
    // Counted in the loop, which also reads and prints and may fail: `filter` and `count` would read the lines twice.
    let mut all = 0u32;
    let mut failed = 0u32;
    for line in BufReader::new(rt.alloc(), rt.stdin())?.lines(rt.alloc()) {
        let line = line?;
        all = all.saturating_add(1);
        if !passes(line.as_bytes()) {
            failed = failed.saturating_add(1);
            println!(rt; "{line}")?;
        }
    }
    println!(rt; "{all} texts, {failed} with another answer")?;
    Ok(())
}
