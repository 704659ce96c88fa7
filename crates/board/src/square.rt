//! A square of the board.
ghost use Rattle.std.specs.Prelude.{◌≡◌, ◌<◌, if◌then◌else◌, Some, None, nat_lt};
ghost use Rattle.std.specs.Option.{option_map};
ghost use Rattle.board.specs.Geometry.{file as file_of, rank as rank_of, square_named};

/// A square's number, 8 × (rank − 1) + file, which is below 64.
#[derive(Clone, Copy, PartialEq, Eq, Debug)]
pub struct Square {
    number: u8,
    ghost on_board: { number < 64 },
}

impl Square {
    pub const A1: Square = Square { number: 0 };

    pub const E1: Square = Square { number: 4 };

    pub const H1: Square = Square { number: 7 };

    pub const A8: Square = Square { number: 56 };

    pub const E8: Square = Square { number: 60 };

    pub const H8: Square = Square { number: 63 };

    /// The square with a number, or none above 63.
    // Not then_some, which would make the square first. Not TryFrom: there is no more to say of a number that is none, and callers go on with `?` in an Option.
    pub fn new(number: u8) -> Option<Square>
        ensures { option_map (λ s. s.number) result ≡ (if nat_lt number 64 then Some number else None) }
    {
        if number < 64 {
            Some(Square { number })
        } else {
            None
        }
    }

    /// The square with a file's letter and a rank's digit, as a1, if they are one.
    pub fn named(file: u8, rank: u8) -> Option<Square>
        ensures { option_map (λ s. s.number) result ≡ square_named file rank }
    {
        match (file, rank) {
            (b'a'..=b'h', b'1'..=b'8') => Square::new(8 * (rank - b'1') + (file - b'a')),
            _ => None,
        }
    }

    /// The number of the square. A method and not From: its other numbers are its file and its rank.
    pub fn number(self) -> u8
        ensures { result ≡ self.number }
    {
        self.number
    }

    /// The square's place in a list of 64.
    pub fn index(self) -> usize
        ensures { result ≡ self.number }
    {
        usize::from(self.number)
    }

    /// The file of the square, counted from 0.
    pub fn file(self) -> u8
        ensures { result ≡ file_of self.number }
    {
        let Square { number } = self;
        number % 8
    }

    /// The rank of the square, counted from 0.
    pub fn rank(self) -> u8
        ensures { result ≡ rank_of self.number }
    {
        let Square { number } = self;
        number / 8
    }
}
