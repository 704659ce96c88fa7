//! Worked positions, proved by computing with the definitions.
#![tactic(auto)]

ghost use Rattle.worked.specs.Worked.{WorkedPositions};
ghost use Rattle.worked.specs.Counts.{MoveCounts};

/// What is written, read and legal in some well-chosen positions.
pub fn worked_positions()
    ensures { WorkedPositions }
{}

/// How many legal moves some well-known positions have, by published counts.
pub fn move_counts()
    ensures { MoveCounts }
{}
