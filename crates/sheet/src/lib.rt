//! The record of a game, as the calls make it.
#![tactic(auto)]

pub mod name;
pub mod word;
