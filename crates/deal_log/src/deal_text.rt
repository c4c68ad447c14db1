//! Texts of deals that were read.

ghost use Rattle.std.specs.Prelude.{◌≡◌, ◌≤◌, ◌<◌, IfSome, MatchResult, Some, length};
ghost use Rattle.dh_base.specs.Limits.{most_parties};
ghost use Rattle.deal_core.specs.Deals.{index_of_account};
ghost use Rattle.deal_core.specs.Reading.{IsFaultOf, IsTextOf};
ghost use Rattle.deal_log.specs.DealTexts.{IsDealText, house_in, id_in, parties_in};
ghost use Rattle.deal_log.specs.Postings.{start_entry};

use deal_core::{Deal, DealFault, party_of, read_deal};
use dh_base::{Id, List};
use std::alloc::Global;
use std::marker::Model;
use vote_log::LogRecord;

/// The text of a deal, which was read. A contract sees the text.
#[derive(Drop)]
pub struct DealText {
    text: List<u8>,
    deal: Deal,
}

impl Model for DealText {
    ghost use Rattle.std.specs.Prelude.{List, ℕ};
    ghost use Rattle.deal_core.specs.Reading.{IsTextOf};

    ghost Value = { List ℕ };

    ghost view = { λ d. d.text };

    ghost invariant = { λ d. IsTextOf d.deal d.text };
}

impl DealText {
    /// The text, if it is read as a deal.
    pub fn read(alloc: Global, text: List<u8>) -> Result<DealText, DealFault>
        ensures { MatchResult result
            (λ kept. (kept ≡ text) × IsDealText text) (IsFaultOf text) }
    {
        let deal = read_deal(alloc, text.as_slice())?;
        Ok(DealText { text, deal })
    }

    /// The text.
    pub fn text(&self) -> &[u8]
        ensures value { result.now ≡ self.now }
        ensures kept { IsDealText self.now }
    {
        self.text.as_slice()
    }

    /// The id of the deal, which is the digest of the text.
    pub fn id(&self) -> Id
        ensures { result ≡ id_in self.now }
    {
        self.deal.id
    }

    /// The deal.
    fn deal(&self) -> &Deal
        ensures { IsTextOf result.now self.now }
    {
        &self.deal
    }

    /// The house that the deal is of.
    pub fn house(&self) -> Id
        ensures { house_in self.now ≡ Some result }
    {
        self.deal().house
    }

    /// How many parties the deal has.
    pub fn parties(&self) -> u16
        ensures value { result ≡ length (parties_in self.now) }
        ensures several { 2 ≤ result }
        ensures few { result ≤ most_parties }
        ensures kept { IsDealText self.now }
    {
        self.deal.parties().len() as u16
    }

    /// The index of the party with the account.
    pub fn party_of(&self, account: &Id) -> Option<u16>
        ensures value { result ≡ index_of_account (parties_in self.now) account.now }
        ensures within { IfSome result (λ index. index < most_parties) }
    {
        party_of(&self.deal, account)
    }

    /// The record that starts the deal.
    pub fn start(&self) -> LogRecord
        ensures value { result ≡ start_entry self.now }
        ensures kept { IsDealText self.now }
    {
        let deal = self.deal();
        LogRecord::start(self.parties(), deal.id)
    }
}
