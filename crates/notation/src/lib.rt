//! Chess notation: decimal numbers and FEN.
#![tactic(auto)]

pub mod decimal;
pub mod fen;
