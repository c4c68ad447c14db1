//! The head of a log: one id that stands for the house and all records of its log.

ghost use Rattle.std.specs.Prelude.{◌≡◌};
ghost use Rattle.vote_log.specs.Heads.{first_head, next_head, head_from, head_after};

use crate::log_record::LogRecord;
use crate::record_texts::record_text;
use dh_base::Id;
use sha2::{Digest, Sha256};

/// The head before the first record.
pub fn first_head(house: &Id) -> Id
    ensures { result ≡ first_head house.now }
{
    let mut hasher = Sha256::new();
    hasher.update(b"CCDHEAD0");
    hasher.update(house.0.as_slice());
    Id(hasher.finalize())
}

/// The head after one more record.
fn next_head(head: &Id, rec: &LogRecord) -> Id
    ensures { result ≡ next_head head.now rec.now }
{
    let mut hasher = Sha256::new();
    hasher.update(b"CCDHEAD1");
    hasher.update(head.0.as_slice());
    hasher.update(record_text(rec).as_slice());
    Id(hasher.finalize())
}

/// The head after more records, from the head before them. Who looks at heads of several fronts of
/// one list hashes each record once.
pub fn head_onward(before: &Id, recs: &[LogRecord]) -> Id
    ensures { result ≡ head_from before.now recs.now }
{
    let mut head = *before;
    for rec in recs {
        head = next_head(&head, rec);
    }
    head
}

/// The head of the log of the house with that id. Seats sign the heads of their logs, and ledgers
/// look for them in what they are shown. It takes no memory.
pub fn head_of(house: &Id, recs: &[LogRecord]) -> Id
    ensures { result ≡ head_after house.now recs.now }
{
    head_onward(&first_head(house), recs)
}
