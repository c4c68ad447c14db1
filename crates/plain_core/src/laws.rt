//! What holds of every plain script that has a report.

ghost use Rattle.std.specs.Prelude.{◌≡◌, ℕ, List, Ok};
ghost use Rattle.plain_core.specs.Reports.{rehearsal_of};
ghost use Rattle.plain_core.specs.OneLog.{TellsOneLog};

/// Every report is that of a run in which all ledgers follow the one log: no two of them settle a
/// deal differently, each settlement pays what the deal's outcome says, a deciding claim is
/// accepted the first time, and nothing is made or lost.
pub fn one_log()
    ensures { (script report : List ℕ) → rehearsal_of script ≡ Ok report
        → TellsOneLog script report }
{}
