//! Move text, read.
#![tactic(auto)]

pub mod find;
pub mod read;
pub mod text;
pub mod write;
