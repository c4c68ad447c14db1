//! What happens in a house script.

use dh_base::{List, Name};

/// At which side of its next commit a keeper stops.
#[derive(Clone, Copy, Debug, PartialEq, Eq)]
pub enum StopSide {
    Before,
    After,
}

/// A line that happens: it stands behind `begin` and prints a reply. A number is none where it
/// exceeds its field: 64 bits of a deadline and of a time, 32 bits of any other.
#[derive(Drop)]
pub enum Event {
    /// The envelope of an act is delivered to the ledger.
    Deliver {
        ledger: Name,
        envelope: Name,
    },
    /// A claim is shown to the ledger, to settle the deal.
    Show {
        ledger: Name,
        deal: Name,
        claim: Name,
    },
    /// The ledger is asked for a party's statement.
    Ask {
        statement: Name,
        ledger: Name,
        deal: Name,
        party: Name,
    },
    /// The party joins the deal, on its terms where it names some.
    Join {
        party: Name,
        deal: Name,
        deadline: Option<u64>,
        terms: Option<Name>,
    },
    /// The party signs its next act of the deal.
    Next {
        party: Name,
        deal: Name,
        envelope: Name,
    },
    /// The party gives the envelope of an act again.
    Again {
        party: Name,
        deal: Name,
        act: Option<u32>,
        envelope: Name,
    },
    /// The party signs the start of the deal.
    Start {
        party: Name,
        deal: Name,
        envelope: Name,
    },
    /// The party signs its vote to commit.
    Commit {
        party: Name,
        deal: Name,
        envelope: Name,
    },
    /// The party signs its vote to abort.
    Abort {
        party: Name,
        deal: Name,
        envelope: Name,
    },
    /// The time is told to the party, which aborts behind its deadline.
    Tick {
        party: Name,
        deal: Name,
        now: Option<u64>,
        envelope: Name,
    },
    /// The party hears a statement.
    Hear {
        party: Name,
        statement: Name,
    },
    /// The envelope of a record is entered into the seat's list.
    Enter {
        seat: Name,
        at: Option<u32>,
        envelope: Name,
    },
    /// The seat signs its first records.
    Prefix {
        seat: Name,
        len: Option<u32>,
        envelope: Name,
    },
    /// The seat hands its list over to the next set.
    Handover {
        seat: Name,
        set: Name,
        len: Option<u32>,
        envelope: Name,
    },
    /// The seat of a later set begins with the records of the claim, with the texts of the deals.
    Install {
        seat: Name,
        claim: Name,
        deals: List<Name>,
    },
    /// The next call of the node's keeper fails.
    Fail {
        node: Name,
    },
    /// The node's keeper stops at its next commit.
    Stop {
        node: Name,
        side: StopSide,
    },
    /// The node is closed and opened again.
    Reopen {
        node: Name,
    },
    /// The seat signs the outcome of one deal.
    Status {
        seat: Name,
        deal: Name,
        envelope: Name,
    },
}
