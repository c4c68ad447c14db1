//! The texts of a log's deals.

ghost use Rattle.std.specs.Prelude.{◌≡◌, OnOk, OnErr};
ghost use Rattle.std.specs.Option.{option_copied};
ghost use Rattle.std.specs.FinMap as finite;
ghost use Rattle.deal_log.specs.DealTexts.{id_in, text_of};

use crate::deal_text::DealText;
use dh_base::{Id, NoMemory};
use std::alloc::Global;
use std::collections::BTreeMap;
use std::marker::Model;

/// Texts of deals, each under the id of its deal.
#[derive(Drop)]
pub struct DealTexts {
    by_deal: BTreeMap<Id, DealText>,
}

impl Model for DealTexts {
    ghost use Rattle.std.specs.Coded.{coded_ℕ, coded_list};
    ghost use Rattle.std.specs.FinMap as finite;
    ghost use Rattle.deal_log.specs.DealTexts.{TextMap};

    ghost Value = { TextMap };

    ghost coded = { finite.code (coded_list coded_ℕ) (coded_list coded_ℕ) };

    ghost use Rattle.deal_log.specs.DealTexts.{by_bytes};

    ghost view = { λ t. finite.from_entries (by_bytes t.by_deal.entries) };
}

impl DealTexts {
    /// No texts.
    pub fn new(alloc: Global) -> DealTexts
        ensures { result ≡ finite.empty }
    {
        DealTexts {
            by_deal: BTreeMap::new(alloc),
        }
    }

    /// The text of a deal.
    pub fn get(&self, deal: &Id) -> Option<&DealText>
        ensures { option_copied result ≡ text_of self.now deal.now }
    {
        self.by_deal.get(deal)
    }

    /// Puts a text in place of the one that its deal had.
    pub fn put(&mut self, text: DealText) -> Result<(), NoMemory>
        ensures ok { OnOk result (self.new ≡ finite.insert self.old (id_in text).0 text) }
        ensures unchanged { OnErr result (self.new ≡ self.old) }
    {
        self.by_deal.insert(text.id(), text)?;
        Ok(())
    }

    /// Takes the text of a deal away. It takes no memory.
    pub fn remove(&mut self, deal: &Id)
        ensures { self.new ≡ finite.remove self.old deal.now.0 }
    {
        self.by_deal.remove(deal);
    }
}
