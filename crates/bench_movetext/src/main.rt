//! Reads or writes move text many times, for measuring: the arguments are a make of board, match or write, and how many times;
//! each line of standard input has a move text, a space and a FEN text.
#![tactic(auto)]

use anyhow::anyhow;
use bitboard::Bitboard;
use board::Board;
use laws::position::Position;
use mailbox::Mailbox;
use moves::action::Move;
use movetext::{find, write};
use notation::fen;
use std::env;
use std::io::{BufRead, BufReader};

// What is done with a move text.
#[derive(Clone, Copy, PartialEq, Eq)]
enum Mode {
    Match,
    Write,
}

impl Mode {
    // The mode with a name, if there is one.
    fn named(name: &str) -> Option<Mode> {
        match name {
            "match" => Some(Mode::Match),
            "write" => Some(Mode::Write),
            _ => None,
        }
    }
}

// Matches a move text so many times, and answers the sum of the numbers of the moves found.
fn match_text<B: Board>(board: &mut B, position: &Position, text: &[u8], times: u32) -> u64 {
    let mut sum = 0u64;
    for _ in 0..times {
        if let Ok(m) = find::answer(board, position, text) {
            sum = sum.saturating_add(u64::from(m.number()));
        }
    }
    sum
}

// Writes a move so many times, and answers how many bytes were written.
fn write_move<B: Board>(board: &mut B, position: &Position, m: Move, times: u32) -> u64 {
    let mut bytes = 0u64;
    for _ in 0..times {
        if let Some(text) = write::san(board, position, m) {
            bytes = bytes.saturating_add(text.len() as u64);
        }
    }
    bytes
}

// What a line comes to, on a board.
fn measure<B: Board>(board: &mut B, line: &str, mode: Mode, times: u32) -> anyhow::Result<u64> {
    let Some((text, place)) = line.split_once(' ') else {
        return Err(anyhow!("a line is a move text, a space and a FEN text"));
    };
    let text = text.as_bytes();
    let position = fen::read(board, place.as_bytes()).map_err(|_| anyhow!("not a start position"))?;
    let m = find::answer(board, &position, text).map_err(|_| anyhow!("not a legal move's text"))?;
    Ok(match mode {
        Mode::Match => match_text(board, &position, text, times),
        Mode::Write => write_move(board, &position, m, times),
    })
}

// Prints what each line comes to, on a board.
fn answer<B: Board>(rt: &HostRuntime, board: &mut B, mode: Mode, times: u32) -> anyhow::Result<()> {
    for line in BufReader::new(rt.alloc(), rt.stdin())?.lines(rt.alloc()) {
        let sum = measure(board, line?.as_str(), mode, times)?;
        println!(rt; "{sum}")?;
    }
    Ok(())
}

// Measures on the make of board, in the mode and so many times as the arguments say.
fn main(rt: HostRuntime) -> anyhow::Result<()> {
    let words: Vec<String> = env::args(&rt)?.collect(rt.alloc())?;
    let [_, make, mode, times] = words.as_slice() else {
        return Err(anyhow!("the arguments are a make of board, a mode and a number"));
    };
    let mode = Mode::named(mode.as_str()).ok_or_else(|| anyhow!("the mode is match or write"))?;
    let times = times
        .as_str()
        .parse::<u32>()
        .map_err(|_| anyhow!("not a number of times"))?;
    match make.as_str() {
        "mailbox" => answer(&rt, &mut Mailbox::new(), mode, times),
        "bitboard" => answer(&rt, &mut Bitboard::new(), mode, times),
        _ => Err(anyhow!("the make of board is mailbox or bitboard")),
    }
}
