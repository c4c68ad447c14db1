//! What an envelope asks of a log.

ghost use Rattle.std.specs.Prelude.{◌≡◌, ◌<◌, ◌^◌, MatchResult, Ok, length};
ghost use Rattle.act_text.specs.ActReading.{act_of};
ghost use Rattle.act_text.specs.ActTexts.{kind_of, office_of};
ghost use Rattle.act_text.specs.declared.office.Office.TheVariants.{Log};
ghost use Rattle.deal_log.specs.DealTexts.{IsDealText};
ghost use Rattle.deal_log.specs.Postings.{IsActFault, IsPosted, IsTextFault, entry_of};
ghost use Rattle.deal_log.specs.declared.posting.Posting.TheVariants.{Start};

use crate::admit_fault::AdmitFault;
use crate::deal_text::DealText;
use act_text::{Act, ActFault, Office, read_act};
use deal_core::DealFault;
use dh_base::{Id, List, MOST_PARTIES, Outcome};
use key_ring::{Envelope, check};
use std::alloc::Global;
use vote_log::{LogFault, LogRecord};

/// What an account asks a log to take.
#[derive(Drop)]
pub enum Posting {
    /// The start of the deal of a text.
    Start {
        account: Id,
        text: DealText,
    },
    /// A vote as the party of that index.
    Vote {
        account: Id,
        choice: Outcome,
        index: u16,
        deal: Id,
    },
}

impl Posting {
    /// The record that is asked for. A vote with an index above 15 has none.
    pub fn record(&self) -> Option<LogRecord>
        ensures { result ≡ entry_of self.now }
    {
        match self {
            Posting::Start { text, .. } => Some(text.start()),
            Posting::Vote {
                choice,
                index,
                deal,
                ..
            } if (*index as usize) < MOST_PARTIES => Some(LogRecord::vote(*choice, *index, *deal)),
            Posting::Vote { .. } => None,
        }
    }
}

/// The act of a log that the message is.
fn read_log_act(alloc: Global, message: &[u8]) -> Result<Act, AdmitFault>
    requires { length message.now < 2 ^ 32 }
    ensures { MatchResult result
        (λ said. (act_of Log message.now ≡ Ok said) × (office_of (kind_of said) ≡ Log))
        (IsActFault message.now) }
{
    match read_act(alloc, Office::Log, message) {
        Ok(act) => Ok(act),
        Err(ActFault::NoMemory) => Err(AdmitFault::from(LogFault::NoMemory)),
        Err(fault) => Err(AdmitFault::BadAct { fault }),
    }
}

/// The start of the deal of the text.
fn start_posting(alloc: Global, account: Id, text: List<u8>) -> Result<Posting, AdmitFault>
    ensures { MatchResult result
        (λ posting. (posting ≡ Start account text) × IsDealText text) (IsTextFault text) }
{
    match DealText::read(alloc, text) {
        Ok(text) => Ok(Posting::Start { account, text }),
        Err(DealFault::NoMemory) => Err(AdmitFault::from(LogFault::NoMemory)),
        Err(fault) => Err(AdmitFault::BadDeal { fault }),
    }
}

/// What the envelope asks of a log, or why it asks nothing.
pub fn read_posting(alloc: Global, env: &Envelope) -> Result<Posting, AdmitFault>
    requires { length env.now.message < 2 ^ 32 }
    ensures { IsPosted env.now result }
{
    let account = match check(env) {
        Ok(said) => said.account,
        Err(fault) => return Err(AdmitFault::BadEnvelope { fault }),
    };
    match read_log_act(alloc, env.message.as_slice()) {
        Err(fault) => Err(fault),
        Ok(Act::StartDeal { text }) => start_posting(alloc, account, text),
        Ok(
            Act::Vote {
                deal,
                index,
                choice,
            },
        ) => Ok(Posting::Vote {
            account,
            choice,
            index,
            deal,
        }),
        Ok(_) => unreachable!(),
    }
}
