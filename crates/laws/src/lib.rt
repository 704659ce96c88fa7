//! The laws of chess: what a lawful position is.
#![tactic(auto)]

mod lawful;
pub mod position;
pub mod setup;
