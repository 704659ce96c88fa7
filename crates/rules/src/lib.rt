//! The rules of chess as definitions: lawful positions, legal moves, and the position after a move.
#![tactic(auto)]

ghost use Rattle.rules.specs.Legal.{StaysLawful};

pub mod breach;
pub mod home;
pub mod rights;

/// A legal move from a lawful position leads to a lawful one.
pub fn legal_moves_stay_lawful()
    ensures { StaysLawful }
{}
