//! The record of a game and the calls on it, as definitions, and what is proved of them.
#![tactic(auto)]

pub mod outcome;
pub mod standing;
