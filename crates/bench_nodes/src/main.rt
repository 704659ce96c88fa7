//! Counts the leaves of legal play on the make of board that its argument names: each line of standard input has a depth, a space and a FEN text.
#![tactic(auto)]

use anyhow::anyhow;
use bitboard::Bitboard;
use board::Board;
use mailbox::Mailbox;
use notation::fen;
use std::env;
use std::io::{BufRead, BufReader};
use tree::leaves;

// The leaves that a line asks for, on a board.
fn count<B: Board>(rt: &HostRuntime, board: &mut B, line: &str) -> anyhow::Result<u64> {
    let [depth @ b'0'..=b'9', b' ', text @ ..] = line.as_bytes() else {
        return Err(anyhow!("a line is a depth from 0 to 9, a space and a FEN text"));
    };
    let position = fen::read(board, text).map_err(|_| anyhow!("not a start position"))?;
    Ok(leaves(rt.alloc(), board, &position, *depth - b'0')?)
}

// Prints the leaves of each line, counted on a board.
fn answer<B: Board>(rt: &HostRuntime, board: &mut B) -> anyhow::Result<()> {
    for line in BufReader::new(rt.alloc(), rt.stdin())?.lines(rt.alloc()) {
        let leaves = count(rt, board, line?.as_str())?;
        println!(rt; "{leaves}")?;
    }
    Ok(())
}

// Counts on the make of board that the argument names.
fn main(rt: HostRuntime) -> anyhow::Result<()> {
    let words: Vec<String> = env::args(&rt)?.collect(rt.alloc())?;
    let make = words.get(1).map_or("", |word| word.as_str());
    match make {
        "mailbox" => answer(&rt, &mut Mailbox::new()),
        "bitboard" => answer(&rt, &mut Bitboard::new()),
        _ => Err(anyhow!("the argument is mailbox or bitboard")),
    }
}
