//! Words of 64 bits as sets of squares: bit n for square n.
ghost use Rattle.std.specs.Prelude.{◌≡◌, not, ◌&&◌, ◌||◌, ◌==◌, nat_le};
ghost use Rattle.board.specs.Below.{some_below, least_below};
ghost use Rattle.rays.specs.Sets.{has, SetOf, greatest_below};

/// Whether a square is a member.
pub fn contains(set: u64, square: u8) -> bool
    ensures { result ≡ has set square }
{
    square < 64 && (set >> square) & 1 == 1
}

/// The set of one square; the empty set for a square above 63.
fn only(square: u8) -> u64
    ensures { SetOf (λ s. s == square) result }
{
    1u64.checked_shl(u32::from(square)).unwrap_or(0)
}

/// The set with a square added; a square above 63 adds nothing.
pub fn with(set: u64, square: u8) -> u64
    ensures { SetOf (λ s. (s == square) || has set s) result }
{
    set | only(square)
}

/// The set with a square taken out.
pub fn without(set: u64, square: u8) -> u64
    ensures { SetOf (λ s. not (s == square) && has set s) result }
{
    set & !only(square)
}

/// The members from a square up.
pub fn upward(set: u64, square: u8) -> u64
    ensures { SetOf (λ s. nat_le square s && has set s) result }
{
    if square > 63 {
        0
    } else {
        (set >> square) << square
    }
}

/// Whether two sets have a member in common.
pub fn meet(one: u64, other: u64) -> bool
    ensures { result ≡ some_below 64 (λ s. has one s && has other s) }
{
    one & other != 0
}

/// The lowest member.
pub fn lowest(set: u64) -> Option<u8>
    ensures { result ≡ least_below 64 (has set) }
{
    (set != 0).then(|| set.trailing_zeros() as u8)
}

/// The highest member.
pub fn highest(set: u64) -> Option<u8>
    ensures { result ≡ greatest_below 64 (has set) }
{
    (set != 0).then(|| (63 - set.leading_zeros()) as u8)
}
