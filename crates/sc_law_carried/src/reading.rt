//! The schedule and the requests that are read off rows, and which rows are lawful with them.
//! Definitions and laws; no code that runs.
ghost use Rattle.sc_law_carried.specs.reading.ReadingLaws.{NoRowsAreLawful, StepsAreLawful, LawfulRowsAreSteps, ReadScenariosAreWellFormed};

/// Shows that rows are lawful with the schedule that is read off them exactly where each is a step
/// after the rows before it (`IsStep`) that a line of a schedule may make, and that a well formed
/// scenario stays so with the clients and the schedule that are read off rows.
pub fn rows_are_read_one_by_one()
    ensures none { NoRowsAreLawful }
    ensures steps { StepsAreLawful }
    ensures last { LawfulRowsAreSteps }
    ensures formed { ReadScenariosAreWellFormed }
{}
