//! The results of a game.

/// The result of a game: a win of one side, a draw, or open.
#[derive(Clone, Copy, PartialEq, Eq, Debug)]
pub enum Outcome {
    /// 1-0
    White,
    /// 0-1
    Black,
    /// 1/2-1/2
    Draw,
    /// *
    Open,
}
