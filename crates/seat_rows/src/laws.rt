//! What holds of the tables of every seat.

ghost use Rattle.seat_rows.specs.CommitsStand.{EntriesStand, SignaturesStand, ClosingsStand};

/// Where tables stand for the state of a seat, they stand for its next one behind each commit.
pub fn commits_stand()
    ensures entries { EntriesStand }
    ensures signatures { SignaturesStand }
    ensures closings { ClosingsStand }
{}
