//! What a house script makes of envelopes, lists of records, claims and terms.

use crate::forged_text::ForgedText;
use crate::record_line::RecordLine;
use dh_base::{Name, Outcome};

/// Which side of its terms a party names.
#[derive(Clone, Copy, Debug, PartialEq, Eq)]
pub enum TermSide {
    /// The most that it gives.
    Give,
    /// The least that it gets.
    Get,
}

/// A line that builds: it stands behind `begin` and prints nothing. A number is none where it
/// exceeds 32 bits.
#[derive(Drop)]
pub enum Building {
    /// An envelope under a key of the holder, kept by no node.
    Forge {
        envelope: Name,
        holder: Name,
        key: Option<u32>,
        text: ForgedText,
    },
    /// The envelope with the lowest bit of the last byte of its signature changed.
    Flip {
        flipped: Name,
        envelope: Name,
    },
    /// An empty list of records.
    Log {
        log: Name,
    },
    /// A record at the end of a list.
    Record {
        log: Name,
        record: RecordLine,
    },
    /// The first records of an honest seat.
    Take {
        log: Name,
        seat: Name,
        len: Option<u32>,
    },
    /// A claim with the records of the list and their head, without links and signatures.
    Claim {
        claim: Name,
        log: Name,
    },
    /// The claim without its last record, under the head that it had.
    Cut {
        claim: Name,
    },
    /// A link to the set, at the head of the first records.
    Link {
        claim: Name,
        set: Name,
        len: Option<u32>,
    },
    /// A signature of the last link, by the seat of that number.
    LinkBy {
        claim: Name,
        seat: Option<u32>,
        envelope: Name,
    },
    /// A signature of the claim, by the seat of that number.
    By {
        claim: Name,
        seat: Option<u32>,
        envelope: Name,
    },
    /// A row of terms.
    Term {
        terms: Name,
        side: TermSide,
        ledger: Name,
        asset: Name,
        amount: u64,
    },
    /// A claim of one deal's outcome, with the head of the first records of the list.
    StatusClaim {
        claim: Name,
        deal: Name,
        log: Name,
        len: Option<u32>,
        outcome: Outcome,
    },
}
