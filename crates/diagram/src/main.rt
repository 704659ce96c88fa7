//! Reads lines of FEN, draws each position and lists its legal moves, or says what is wrong with the line.
//! The argument names the make of board, mailbox or bitboard; without one it is the bitboard.
#![tactic(auto)]

use anyhow::anyhow;
use bitboard::Bitboard;
use drawing::draw_input;
use mailbox::Mailbox;
use std::env;
use std::io::{Read, Write};

// What is drawn of an input on the make of board that an argument names.
fn draw(rt: &HostRuntime, make: &str, input: &[u8]) -> anyhow::Result<Vec<u8>> {
    let drawn = match make {
        "mailbox" => draw_input(rt.alloc(), Mailbox::new(), input)?,
        "bitboard" => draw_input(rt.alloc(), Bitboard::new(), input)?,
        _ => return Err(anyhow!("the make of board is mailbox or bitboard")),
    };
    Ok(drawn)
}

fn main(rt: HostRuntime) -> anyhow::Result<()> {
    let words: Vec<String> = env::args(&rt)?.collect(rt.alloc())?;
    let make = words.get(1).map_or("bitboard", |word| word.as_str());
    let mut input = Vec::new(rt.alloc());
    rt.stdin().read_to_end(&mut input)?;
    let drawn = draw(&rt, make, &input)?;
    rt.stdout().write_all(&drawn)?;
    Ok(())
}
