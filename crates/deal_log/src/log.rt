//! The log of a house.

ghost use Rattle.std.specs.Prelude.{◌≡◌, ◌<◌, ◌^◌, ◌++◌, ◌∷◌, [], IfOk, IfErr, IfNone, OnOk, OnErr, MatchResult, None, Some, length};
ghost use Rattle.std.specs.Option.{option_copied, option_or};
ghost use Rattle.std.specs.FinMap as finite;
ghost use Rattle.dh_base.specs.Limits.{most_parties};
ghost use Rattle.deal_core.specs.Deals.{index_of_account};
ghost use Rattle.vote_log.specs.Admission.{votable_of};
ghost use Rattle.vote_log.specs.Deciding.{outcome_of};
ghost use Rattle.deal_log.specs.DealTexts.{house_in, id_in, parties_in, text_of};
ghost use Rattle.deal_log.specs.Postings.{start_entry, vote_entry};
ghost use Rattle.deal_log.specs.Rebuilding.{IsRebuilt, IsRebuildFault};
ghost use Rattle.deal_log.specs.VoteLogs.{VoteLogTold, HasTexts, IsVoteLog, IsRefusal, IsAdmitFault, IsAsked, IsWithPosting, IsUndoable, Admits, house_refusal, party_refusal, stranger, is_party_at, vote_refusal, ask_refusal, record_refusal, refusal_of};

use crate::admit_fault::AdmitFault;
use crate::deal_text::DealText;
use crate::deal_texts::DealTexts;
use crate::posting::{Posting, read_posting};
use crate::rebuild_fault::RebuildFault;
use crate::rebuilding::{first_unkept, records_of, texts_of};
use dh_base::{Id, List, Outcome};
use key_ring::Envelope;
use std::alloc::Global;
use std::marker::Model;
use vote_log::{Decision, Kind, LogFault, LogRecord, Records};

/// The most records of a log.
pub const MOST_RECORDS: u32 = 4096;

/// The account may not ask this.
fn stranger(account: &Id) -> AdmitFault
    ensures { result ≡ stranger account.now }
{
    AdmitFault::from(LogFault::NotAParty { account: *account })
}

/// Why the start of the deal of a text is not the account's to ask of this house.
fn start_refusal(house: &Id, account: &Id, text: &DealText) -> Option<AdmitFault>
    ensures value { result ≡ option_or (house_refusal house.now (house_in text.now))
        (party_refusal account.now (index_of_account (parties_in text.now) account.now)) }
    ensures housed { IfNone result (house_in text.now ≡ Some house.now) }
{
    let named = text.house();
    if named != *house {
        return Some(AdmitFault::WrongHouse { named });
    }
    match text.party_of(account) {
        None => Some(stranger(account)),
        Some(_) => None,
    }
}

/// The log of a house: its records, and the texts of deals that it started. It keeps the text of
/// each deal that can still be voted on.
#[derive(Drop)]
pub struct VoteLog {
    alloc: Global,
    house: Id,
    records: Records,
    texts: DealTexts,
}

impl Model for VoteLog {
    ghost use Rattle.std.specs.Prelude.{◌≡◌};
    ghost use Rattle.deal_log.specs.VoteLogs.{VoteLogTold, HasTexts, most_records, vote_log_code};

    ghost Value = { VoteLogTold };

    ghost coded = { vote_log_code };

    ghost view = { λ a. record { house = a.house; entries = a.records.entries; texts = a.texts } };

    ghost invariant = { λ a. (a.records.limit ≡ most_records)
        × HasTexts a.house a.records.entries a.texts };
}

impl VoteLog {
    /// The empty log of the house.
    pub fn new(alloc: Global, house: &Id) -> VoteLog
        ensures { result ≡ record { house = house.now; entries = []; texts = finite.empty } }
    {
        VoteLog {
            alloc,
            house: *house,
            records: Records::new(alloc, MOST_RECORDS),
            texts: DealTexts::new(alloc),
        }
    }

    /// The log of the house again, from its records and texts of its deals. It keeps those of the
    /// texts that are for deals that it starts.
    pub fn rebuild(
        alloc: Global,
        house: &Id,
        recs: &[LogRecord],
        texts: &[List<u8>],
    ) -> Result<VoteLog, RebuildFault>
        requires { length recs.now < 2 ^ 32 }
        ensures { MatchResult result (IsRebuilt house.now recs.now texts.now)
            (IsRebuildFault house.now recs.now texts.now) }
    {
        let records = match records_of(alloc, recs) {
            Ok(records) => records,
            Err(fault) => return Err(fault),
        };
        let kept = texts_of(alloc, house, &records, texts)?;
        if let Some(at) = first_unkept(&records, &kept, recs) {
            return Err(RebuildFault::TextMissing { at });
        }
        Ok(VoteLog {
            alloc,
            house: *house,
            records,
            texts: kept,
        })
    }

    /// The records.
    pub fn recs(&self) -> &[LogRecord]
        ensures value { result.now ≡ self.now.entries }
        ensures kept { IsVoteLog self.now }
        ensures few { length result.now < 2 ^ 32 }
    {
        self.records.recs()
    }

    /// The text of a deal, where it is kept. It takes no memory.
    pub fn text_of(&self, deal: &Id) -> Option<&[u8]>
        ensures { option_copied result ≡ text_of self.now.texts deal.now }
    {
        match self.texts.get(deal) {
            Some(text) => Some(text.text()),
            None => None,
        }
    }

    /// What the log decides of the deal, and where. It takes no memory.
    pub fn decision(&self, deal: &Id) -> Option<Decision>
        ensures { result ≡ outcome_of self.now.entries deal.now }
    {
        self.records.decision(deal)
    }

    /// Why this is not the account's to ask of the log.
    fn ask_refusal(&self, posting: &Posting) -> Option<AdmitFault>
        ensures value { result ≡ ask_refusal self.now posting.now }
        ensures ranged { IfNone result (IsAsked self.now.house posting.now) }
    {
        match posting {
            Posting::Start { account, text } => start_refusal(&self.house, account, text),
            Posting::Vote {
                account,
                index,
                deal,
                ..
            } => self.vote_refusal(account, *index, deal),
        }
    }

    /// Why the account may not vote as the party of that index.
    fn vote_refusal(&self, account: &Id, index: u16, deal: &Id) -> Option<AdmitFault>
        ensures value { result ≡ vote_refusal (votable_of self.now.entries deal.now)
            (is_party_at self.now.texts deal.now account.now index) account.now }
        ensures ranged { IfNone result (index < most_parties) }
    {
        if let Err(fault) = self.records.votable(deal) {
            return Some(AdmitFault::from(fault));
        }
        let Some(text) = self.texts.get(deal) else {
            return Some(stranger(account));
        };
        match text.party_of(account) {
            Some(own) if own == index => None,
            _ => Some(stranger(account)),
        }
    }

    /// Adds the start of a deal of this house.
    fn add_start(&mut self, text: DealText) -> Result<u32, AdmitFault>
        requires { house_in text ≡ Some self.old.house }
        ensures ok { OnOk result ((record_refusal self.old.entries (start_entry text) ≡ None)
            × (self.new ≡ record self.old {
              entries = self.old.entries ++ start_entry text ∷ [];
              texts = finite.insert self.old.texts (id_in text).0 text;
            })) }
        ensures place { IfOk result (λ at. at ≡ length self.old.entries) }
        ensures refused { IfErr result (λ fault.
            IsRefusal fault (record_refusal self.old.entries (start_entry text))) }
        ensures unchanged { OnErr result (self.new ≡ self.old) }
        ensures kept { HasTexts self.old.house self.old.entries self.old.texts }
    {
        let at = self.records.add(&text.start())?;
        match self.texts.put(text) {
            Ok(()) => Ok(at),
            Err(_) => {
                self.records.take_back();
                Err(AdmitFault::from(LogFault::NoMemory))
            }
        }
    }

    /// Adds a vote on a deal.
    fn add_vote(&mut self, choice: Outcome, index: u16, deal: &Id) -> Result<u32, AdmitFault>
        requires { index < most_parties }
        ensures ok { OnOk result
            ((record_refusal self.old.entries (vote_entry choice index deal.now) ≡ None)
            × (self.new ≡ record self.old {
              entries = self.old.entries ++ vote_entry choice index deal.now ∷ [];
            })) }
        ensures place { IfOk result (λ at. at ≡ length self.old.entries) }
        ensures refused { IfErr result (λ fault. IsRefusal fault
            (record_refusal self.old.entries (vote_entry choice index deal.now))) }
        ensures unchanged { OnErr result (self.new ≡ self.old) }
        ensures kept { HasTexts self.old.house self.old.entries self.old.texts }
    {
        let at = self.records.add(&LogRecord::vote(choice, index, *deal))?;
        Ok(at)
    }

    /// Takes what is asked, and answers the place of its record. Where it is refused, or memory
    /// runs out, the log stays as it was.
    pub fn take(&mut self, posting: Posting) -> Result<u32, AdmitFault>
        ensures ok { OnOk result (IsWithPosting self.old posting self.new) }
        ensures place { IfOk result (λ at. at ≡ length self.old.entries) }
        ensures undoable { OnOk result (IsUndoable self.old self.new) }
        ensures refused { IfErr result (λ fault.
            IsRefusal fault (refusal_of self.old posting)) }
        ensures unchanged { OnErr result (self.new ≡ self.old) }
    {
        if let Some(fault) = self.ask_refusal(&posting) {
            return Err(fault);
        }
        match posting {
            Posting::Start { text, .. } => self.add_start(text),
            Posting::Vote {
                choice,
                index,
                deal,
                ..
            } => self.add_vote(choice, index, &deal),
        }
    }

    /// Takes what the envelope asks, and answers the place of its record.
    pub fn admit(&mut self, env: &Envelope) -> Result<u32, AdmitFault>
        requires { length env.now.message < 2 ^ 32 }
        ensures ok { OnOk result (Admits env.now self.old self.new) }
        ensures place { IfOk result (λ at. at ≡ length self.old.entries) }
        ensures undoable { OnOk result (IsUndoable self.old self.new) }
        ensures refused { IfErr result (IsAdmitFault env.now self.old) }
        ensures unchanged { OnErr result (self.new ≡ self.old) }
    {
        match read_posting(self.alloc, env) {
            Ok(posting) => self.take(posting),
            Err(fault) => Err(fault),
        }
    }

    /// Takes back what was taken last, as where a commit failed that was to keep it. It takes no
    /// memory, so a log can take first, to learn whether it is refused, and keep afterwards.
    pub fn take_back(&mut self)
        requires { (before : VoteLogTold) × IsUndoable before self.old }
        ensures { (before : VoteLogTold) → IsUndoable before self.old → self.new ≡ before }
    {
        if let Some(last) = self.records.take_back() {
            if let Kind::Start = last.kind {
                self.texts.remove(&last.deal);
            }
        }
    }
}
