//! Moves: which are legal, what follows from one, check and the mates.
#![tactic(auto)]

pub mod action;
mod castle;
pub mod legal;
mod pawn;
mod play;
mod reach;
pub mod sort;
pub mod source;
mod squares;
mod table;
mod trial;
mod way;
