//! What a move is.
ghost use Rattle.std.specs.Prelude.{◌≡◌, ◌≤◌, ◌&&◌, if◌then◌else◌, Some, None, nat_le};
ghost use Rattle.std.specs.Option.{option_map};
ghost use Rattle.rules.specs.Move.{move_number, numbered_move};
ghost use Rattle.moves.specs.Action.{plain, promoted_kind, promotion_number, is_move_number};

use board::piece::Kind;
use board::square::Square;

/// What a pawn becomes on the last rank.
#[derive(Clone, Copy, PartialEq, Eq, Debug)]
pub enum Promotion {
    Knight,
    Bishop,
    Rook,
    Queen,
}

/// A move: the squares that a piece leaves and reaches, and what it promotes to. Castling is the king's move by two files.
#[derive(Clone, Copy, PartialEq, Eq, Debug)]
pub struct Move {
    pub from: Square,
    pub to: Square,
    pub promotion: Option<Promotion>,
}

impl From<Promotion> for Kind {
    ghost from_gives = { λ promotion kind. kind ≡ promoted_kind promotion };

    fn from(promotion: Promotion) -> Kind {
        match promotion {
            Promotion::Knight => Kind::Knight,
            Promotion::Bishop => Kind::Bishop,
            Promotion::Rook => Kind::Rook,
            Promotion::Queen => Kind::Queen,
        }
    }
}

// The number of the kind that a pawn becomes, 0 for none: that digit of a move's number.
fn number_of(promotion: Option<Promotion>) -> u8
    ensures number { result ≡ promotion_number promotion }
    ensures most { result ≤ 6 }
{
    promotion.map_or(0, |promotion| Kind::from(promotion).number())
}

impl Promotion {
    // The promotion to the kind with a number. Not TryFrom: of a number that is none there is no more to say.
    fn numbered(number: u16) -> Option<Promotion>
        ensures { option_map (λ p. promotion_number (Some p)) result ≡ (if nat_le 2 number && nat_le number 5 then Some number else None) }
    {
        match number {
            2 => Some(Promotion::Knight),
            3 => Some(Promotion::Bishop),
            4 => Some(Promotion::Rook),
            5 => Some(Promotion::Queen),
            _ => None,
        }
    }
}

impl Move {
    // Methods and not From and TryFrom: the number is an order among moves, and of a number that is none there is no more to say.
    /// The number of the move: from + 64 × to + 4096 × what it promotes to.
    pub fn number(self) -> u16
        ensures { result ≡ move_number (plain self) }
    {
        let from = u16::from(self.from.number());
        let to = u16::from(self.to.number());
        let kind = u16::from(number_of(self.promotion));
        from + 64 * to + 4096 * kind
    }

    /// The move with a number, if any has it.
    pub fn numbered(number: u16) -> Option<Move>
        ensures { option_map plain result ≡ (if is_move_number number then Some (numbered_move number) else None) }
    {
        let from = Square::new((number % 64) as u8)?;
        let to = Square::new((number / 64 % 64) as u8)?;
        let promotion = match number / 4096 {
            0 => None,
            kind => Some(Promotion::numbered(kind)?),
        };
        Some(Move {
            from,
            to,
            promotion,
        })
    }
}
