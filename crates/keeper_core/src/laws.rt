//! What holds of every batch, of every scan, and of calls one after another.

ghost use Rattle.keeper_core.specs.Batches.{LaterWins, OthersStay, OtherTablesStay};
ghost use Rattle.keeper_core.specs.Following.{CommitsFollow, CallsFollow, ReadsFollow, ReadsBehind, EndsEarly, UnarmedNeverFails, UnarmedStays};
ghost use Rattle.keeper_core.specs.NumberedRows.{NumbersOn, StandsUnderNumber, OneNumbering};
ghost use Rattle.keeper_core.specs.Scans.{ScansAscend, ScansListTheMap};

/// Of the changes on one cell, the last decides what the cell has.
pub fn later_wins()
    ensures { LaterWins }
{}

/// A cell that no change of a batch is on has what it had.
pub fn others_stay()
    ensures { OthersStay }
{}

/// Changes on other tables leave the rows of a table as they are.
pub fn other_tables_stay()
    ensures { OtherTablesStay }
{}

/// The rows of a table are in ascending order of their keys.
pub fn scans_ascend()
    ensures { ScansAscend }
{}

/// The rows of a table are those that the map has in it.
pub fn scans_list_the_map()
    ensures { ScansListTheMap }
{}

/// The next value is put under the next number.
pub fn numbers_on()
    ensures { NumbersOn }
{}

/// Under each number of a numbered table stands its value.
pub fn stands_under_number()
    ensures { StandsUnderNumber }
{}

/// A table is numbered in one way only.
pub fn one_numbering()
    ensures { OneNumbering }
{}

/// A commit after a call that made batches is a call with these and the new one. What is read after
/// a call, or not committed any more after a refusal, changes nothing of what the call leaves. A
/// call that may fail at what it reads behind its last commit names a batch of no changes there.
pub fn calls_follow()
    ensures commits { CommitsFollow }
    ensures calls { CallsFollow }
    ensures reads { ReadsFollow }
    ensures behind { ReadsBehind }
    ensures early { EndsEarly }
{}

/// A keeper that runs, and is told that nothing is to come, fails no call, and stays so.
pub fn unarmed_never_fails()
    ensures fails { UnarmedNeverFails }
    ensures stays { UnarmedStays }
{}
