//! How a game stands.

/// How a game is drawn by repetition or by the fifty moves: at a player's claim, or by itself.
#[derive(Clone, Copy, PartialEq, Eq, Debug)]
pub enum Ruling {
    Claimable,
    Automatic,
}

/// How a game stands at the present position.
// Three flags, as they are asked for: a mated side is in check too.
#[derive(Clone, Copy, PartialEq, Eq, Debug)]
pub struct Standing {
    /// The side to move is in check.
    pub check: bool,
    /// It is in check and has no legal move.
    pub checkmate: bool,
    /// It is not in check and has no legal move.
    pub stalemate: bool,
    /// The halfmove clock.
    pub clock: u16,
    /// How often the position occurred along the moves from the start to it, this time counted.
    pub occurrences: u16,
    /// How the game is drawn, if it is.
    pub ruling: Option<Ruling>,
}
