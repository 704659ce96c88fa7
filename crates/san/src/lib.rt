//! SAN and move text as definitions, and what is proved of them.
#![tactic(auto)]

ghost use Rattle.san.specs.Sources.{BySource, ByCastling};
ghost use Rattle.san.specs.Theorems.{ReadsSpelling, ReadsBack, MatchesAlone, TellsApart};

/// A text is read as what it spells, and as nothing else.
pub fn text_reads_spelling()
    ensures { ReadsSpelling }
{}

/// The SAN of a legal move matches that move alone.
pub fn san_matches_alone()
    ensures { MatchesAlone }
{}

/// Different legal moves have different SAN.
pub fn san_tells_apart()
    ensures { TellsApart }
{}

/// The SAN of a legal move is read as that move.
pub fn san_reads_back()
    ensures { ReadsBack }
{}

/// A piece's text matches only moves to its target, one for each square that they come from.
pub fn text_matches_by_source()
    ensures { BySource }
{}

/// A castling text matches at most the castling move.
pub fn text_matches_by_castling()
    ensures { ByCastling }
{}
