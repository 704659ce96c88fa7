//! Why parts make no position.
ghost use Rattle.std.specs.Prelude.{◌≡◌};
ghost use Rattle.rules.specs.Breach.{breach_fault};

use faults::{LawsFault, SheetFault};

/// The law that parts break.
#[derive(Clone, Copy, PartialEq, Eq, Debug)]
pub enum Breach {
    /// A code is above 12.
    Codes,
    /// A side has not exactly one king.
    Kings,
    /// A pawn stands on rank 1 or 8.
    Pawns,
    /// The king of the side not to move is attacked.
    Check,
    /// A castling right stands without its king and rook at home.
    Rights,
    /// The en passant square is not one that a double step just crossed.
    EnPassant,
    /// The clock is above 9,999, or the move number not 1 to 9,999.
    Counters,
}

impl From<Breach> for SheetFault {
    ghost from_gives = { λ law r. r ≡ breach_fault law };

    fn from(law: Breach) -> SheetFault {
        match law {
            Breach::Counters => SheetFault::Counters,
            _ => SheetFault::InLaws(LawsFault::Unlawful),
        }
    }
}
