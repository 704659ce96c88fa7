//! Why a call is refused. A fault belongs to the layer that finds it: text, notation, laws or sheet. On its way up each layer wraps the
//! one below, so that the cause is kept; its number, and by that its layer, stay those of the cause.
#![tactic(auto)]

ghost use Rattle.std.specs.Prelude.{◌≡◌};
ghost use Rattle.faults.specs.Numbers.{text_number, notation_number, laws_number, sheet_number, layer_of};
ghost use Rattle.faults.specs.declared.NotationFault.TheVariants.{InText};
ghost use Rattle.faults.specs.declared.LawsFault.TheVariants.{InNotation};
ghost use Rattle.faults.specs.declared.SheetFault.TheVariants.{InLaws};

/// Faults of the bytes and tokens of a text: layer 1.
#[derive(Clone, Copy, PartialEq, Eq, Debug)]
pub enum TextFault {
    /// The text is over 65,536 bytes, or the place past its end.
    TooLong,
    /// No token starts so, or a tag pair comes late.
    NoToken,
    /// A brace is not closed.
    OpenBrace,
    /// A tag pair is malformed.
    TagPair,
    /// The text ended within a game.
    Ended,
}

/// Faults of what a token says: layer 2.
#[derive(Clone, Copy, PartialEq, Eq, Debug)]
pub enum NotationFault {
    /// A tag's name is not 1 to 32 letters, digits or underscores.
    TagName,
    /// A tag's value is over 200 bytes, or has a byte below 32 or 127.
    TagValue,
    /// Not FEN.
    NotFen,
    /// Not a move text.
    NotMoveText,
    /// A glyph's number is over 255 or misspelt.
    NotGlyph,
    /// A remark has a bad byte or a word that is too long.
    BadRemark,
    /// A remark has no word.
    NoWord,
    /// The value of Result is no result.
    NotResult,
    /// A fault of the text.
    InText(TextFault),
}

/// Faults against the laws of chess: layer 3.
#[derive(Clone, Copy, PartialEq, Eq, Debug)]
pub enum LawsFault {
    /// The position breaks a law.
    Unlawful,
    /// No legal move matches.
    NoMatch,
    /// Several legal moves match.
    SeveralMatch,
    /// Not the winner's result at mate, or not the draw at stalemate.
    WrongResult,
    /// A fault of the notation.
    InNotation(NotationFault),
}

/// Faults of the score and its calls: layer 4.
#[derive(Clone, Copy, PartialEq, Eq, Debug)]
pub enum SheetFault {
    /// The result is settled.
    Settled,
    /// The items are full.
    ItemsFull,
    /// The store of remarks is full.
    RemarksFull,
    /// The tag is Result, SetUp or FEN.
    ReservedTag,
    /// The tag is given already.
    TaggedTwice,
    /// There are 24 further tags.
    TagsFull,
    /// A start's clock is over 999, or its move number not 1 to 5,000.
    Counters,
    /// The line has no move.
    NoMove,
    /// Eight branches are open.
    BranchesFull,
    /// No branch is open.
    NoBranch,
    /// A branch is open.
    BranchOpen,
    /// There is no item.
    NoItem,
    /// The buffer is too short.
    BufferShort,
    /// The terminator differs from the tag Result.
    ResultDiffers,
    /// A fault against the laws.
    InLaws(LawsFault),
}

// The numbers are methods and not From: they are what a fault is called, and the four differ in each arm.
impl TextFault {
    /// The number of the fault.
    pub fn number(self) -> u8
        ensures { result ≡ text_number self }
    {
        match self {
            TextFault::TooLong => 11,
            TextFault::NoToken => 12,
            TextFault::OpenBrace => 13,
            TextFault::TagPair => 14,
            TextFault::Ended => 15,
        }
    }
}

impl NotationFault {
    /// The number of the fault, or of its cause.
    pub fn number(self) -> u8
        ensures { result ≡ notation_number self }
    {
        match self {
            NotationFault::TagName => 21,
            NotationFault::TagValue => 22,
            NotationFault::NotFen => 23,
            NotationFault::NotMoveText => 24,
            NotationFault::NotGlyph => 25,
            NotationFault::BadRemark => 26,
            NotationFault::NoWord => 27,
            NotationFault::NotResult => 28,
            NotationFault::InText(cause) => cause.number(),
        }
    }
}

impl LawsFault {
    /// The number of the fault, or of its cause.
    pub fn number(self) -> u8
        ensures { result ≡ laws_number self }
    {
        match self {
            LawsFault::Unlawful => 31,
            LawsFault::NoMatch => 32,
            LawsFault::SeveralMatch => 33,
            LawsFault::WrongResult => 34,
            LawsFault::InNotation(cause) => cause.number(),
        }
    }
}

impl SheetFault {
    /// The number of the fault, or of its cause.
    pub fn number(self) -> u8
        ensures { result ≡ sheet_number self }
    {
        match self {
            SheetFault::Settled => 42,
            SheetFault::ItemsFull => 43,
            SheetFault::RemarksFull => 44,
            SheetFault::ReservedTag => 45,
            SheetFault::TaggedTwice => 46,
            SheetFault::TagsFull => 47,
            SheetFault::Counters => 48,
            SheetFault::NoMove => 49,
            SheetFault::BranchesFull => 50,
            SheetFault::NoBranch => 51,
            SheetFault::BranchOpen => 52,
            SheetFault::NoItem => 53,
            SheetFault::BufferShort => 55,
            SheetFault::ResultDiffers => 56,
            SheetFault::InLaws(cause) => cause.number(),
        }
    }

    /// The layer of the cause, by its number: 1 text, 2 notation, 3 laws, 4 sheet.
    pub fn layer(self) -> u8
        ensures { result ≡ layer_of (sheet_number self) }
    {
        match self.number() {
            0..=19 => 1,
            20..=29 => 2,
            30..=39 => 3,
            _ => 4,
        }
    }
}

impl From<TextFault> for NotationFault {
    ghost from_gives = { λ cause r. r ≡ InText cause };

    fn from(cause: TextFault) -> NotationFault {
        NotationFault::InText(cause)
    }
}

impl From<NotationFault> for LawsFault {
    ghost from_gives = { λ cause r. r ≡ InNotation cause };

    fn from(cause: NotationFault) -> LawsFault {
        LawsFault::InNotation(cause)
    }
}

impl From<LawsFault> for SheetFault {
    ghost from_gives = { λ cause r. r ≡ InLaws cause };

    fn from(cause: LawsFault) -> SheetFault {
        SheetFault::InLaws(cause)
    }
}

impl From<NotationFault> for SheetFault {
    ghost from_gives = { λ cause r. r ≡ InLaws (InNotation cause) };

    fn from(cause: NotationFault) -> SheetFault {
        SheetFault::InLaws(LawsFault::InNotation(cause))
    }
}
