//! A log that grows.

ghost use Rattle.std.specs.Prelude.{◌≡◌, ◌≤◌, ◌<◌, ◌^◌, ◌++◌, ◌∷◌, [], Ok, Err, None, Some, length, OnOk, OnErr, IfOk, IfErr};
ghost use Rattle.std.specs.Option.{MatchOption};
ghost use Rattle.vote_log.specs.Deciding.{outcome_of};
ghost use Rattle.vote_log.specs.Admission.{add_refusal, parties_started, votable_of, IsLog, IsRefusal};

use crate::admission::{refusal, votable_by};
use crate::decision::Decision;
use crate::log_fault::LogFault;
use crate::log_record::LogRecord;
use crate::tallies::Tallies;
use crate::tally::{owed_after, tally_after, tally_of};
use dh_base::Id;
use std::alloc::Global;
use std::marker::Model;

/// A log with a limit on its length. It takes a start only if room is left for a vote of each party
/// of each started deal that is undecided, so a vote never finds it full.
#[derive(Debug, Drop)]
pub struct Records {
    records: Vec<LogRecord>,
    limit: u32,
    owed: u32,
    tallies: Tallies,
}

impl Model for Records {
    ghost use Rattle.vote_log.specs.Log.{Log};
    ghost use Rattle.vote_log.specs.Tallied.{IsTallied};

    ghost Value = { Log };

    ghost view = { λ a. record { entries = a.records.items; limit = a.limit } };

    ghost invariant = { λ a. IsTallied a.records.items a.limit a.owed a.tallies };
}

impl Records {
    /// The empty log with that limit.
    pub fn new(alloc: Global, limit: u32) -> Records
        ensures { result ≡ record { entries = []; limit = limit } }
    {
        Records {
            records: Vec::new(alloc),
            limit,
            owed: 0,
            tallies: Tallies::new(alloc),
        }
    }

    /// The records.
    pub fn recs(&self) -> &[LogRecord]
        ensures value { result.now ≡ self.now.entries }
        ensures reached { IsLog self.now.entries self.now.limit }
        ensures few { length result.now < 2 ^ 32 }
    {
        self.records.as_slice()
    }

    /// How many records there are.
    pub fn len(&self) -> usize
        ensures value { result ≡ length self.now.entries }
        ensures within { result ≤ self.now.limit }
    {
        self.records.len()
    }

    /// How many parties the deal has, if it is started and undecided. It takes no memory.
    pub fn votable(&self, deal: &Id) -> Result<u16, LogFault>
        ensures { result ≡ votable_of self.now.entries deal.now }
    {
        votable_by(&self.tallies.get(deal).copied())
    }

    /// How many parties the deal has, if it is started. It takes no memory.
    pub fn parties(&self, deal: &Id) -> Option<u16>
        ensures { result ≡ parties_started self.now.entries deal.now }
    {
        Some(self.tallies.get(deal)?.parties)
    }

    /// What the log decides of the deal, and where: the `outcome` of its records. It takes no
    /// memory.
    pub fn decision(&self, deal: &Id) -> Option<Decision>
        ensures { result ≡ outcome_of self.now.entries deal.now }
    {
        self.tallies.get(deal)?.decision
    }

    /// Adds a record, and answers its place.
    pub fn add(&mut self, rec: &LogRecord) -> Result<u32, LogFault>
        ensures ok { OnOk result ((add_refusal self.old.entries self.old.limit rec.now ≡ None)
            × (self.new ≡ record self.old { entries = self.old.entries ++ rec.now ∷ [] })) }
        ensures place { IfOk result (λ at. at ≡ length self.old.entries) }
        ensures refused { IfErr result (λ fault.
            IsRefusal fault (add_refusal self.old.entries self.old.limit rec.now)) }
        ensures unchanged { OnErr result (self.new ≡ self.old) }
    {
        let place = self.records.len() as u32;
        let before = self.tallies.get(&rec.deal).copied();
        if let Some(fault) = refusal(&before, place, self.owed, self.limit, rec) {
            return Err(fault);
        }
        let after = tally_after(before, &rec.deal, rec, place);
        let owed = owed_after(self.owed, &before, &after);
        self.records.push(*rec)?;
        match self.tallies.put(&rec.deal, after) {
            Ok(()) => {
                self.owed = owed;
                Ok(place)
            }
            Err(_) => {
                self.records.pop();
                Err(LogFault::NoMemory)
            }
        }
    }

    /// Takes the last record back, as where a commit failed that was to keep it. It takes no
    /// memory, so a record can be added first, to learn whether it is refused, and be kept
    /// afterwards.
    pub fn take_back(&mut self) -> Option<LogRecord>
        ensures taken { MatchOption result (self.old.entries ≡ []) (λ last.
            self.old ≡ record self.new { entries = self.new.entries ++ last ∷ [] }) }
        ensures none { result ≡ None → self.new ≡ self.old }
    {
        let last = self.records.pop()?;
        let before = self.tallies.get(&last.deal).copied();
        let after = tally_of(self.records.as_slice(), &last.deal);
        self.owed = owed_after(self.owed, &before, &after);
        self.tallies.put_back(&last.deal, after);
        Some(last)
    }
}
