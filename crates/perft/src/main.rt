//! Counts the leaves of legal play: each line of standard input has a depth, a space and a FEN text.
#![tactic(auto)]

use anyhow::anyhow;
use bitboard::Bitboard;
use board::Board;
use mailbox::Mailbox;
use notation::fen;
use std::io::{BufRead, BufReader};
use tree::leaves;

// The leaves that a line asks for, on a board.
fn count<B: Board>(rt: &HostRuntime, board: &mut B, text: &[u8], depth: u8) -> anyhow::Result<u64> {
    let position = fen::read(board, text).map_err(|_| anyhow!("not a start position"))?;
    Ok(leaves(rt.alloc(), board, &position, depth)?)
}

fn answer(rt: &HostRuntime, line: &str) -> anyhow::Result<()> {
    let [depth @ b'0'..=b'9', b' ', text @ ..] = line.as_bytes() else {
        return Err(anyhow!("a line is a depth from 0 to 9, a space and a FEN text"));
    };
    let depth = *depth - b'0';
    let by_mailbox = count(rt, &mut Mailbox::new(), text, depth)?;
    let by_bitboard = count(rt, &mut Bitboard::new(), text, depth)?;
    let agree = if by_mailbox == by_bitboard {
        "agree"
    } else {
        "differ"
    };
    println!(rt; "{line}: mailbox {by_mailbox}, bitboard {by_bitboard}, they {agree}")?;
    Ok(())
}

fn main(rt: HostRuntime) -> anyhow::Result<()> {
    for line in BufReader::new(rt.alloc(), rt.stdin())?.lines(rt.alloc()) {
        answer(&rt, line?.as_str())?;
    }
    Ok(())
}
