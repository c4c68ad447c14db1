//! What a house's declarations make of it.

ghost use Rattle.std.specs.Prelude.{◌≡◌, ◌++◌, IfOk, OnOk, map};
ghost use Rattle.std.specs.List.{find};
ghost use Rattle.std.specs.Option.{option_copied};
ghost use Rattle.std.specs.Str.{bytes_eq};
ghost use Rattle.house_texts.specs.Settings.{setting_of, deal_found, deal_entries, listed_of};

use crate::deals::{DealText, deals_of};
use crate::genesis::genesis_set;
use cert_core::{Set, set_id};
use dh_base::{Id, Name, NoMemory};
use holder_names::Directory;
use house_grammar::Declaration;
use house_holders::Holders;
use std::alloc::Global;
use std::marker::Model;

/// What stays as it is in a house while things happen: its holders, its first set and the id of the
/// house, and its deals.
#[derive(Drop)]
pub struct Setting {
    holders: Holders,
    genesis: Set,
    house: Id,
    deals: Vec<DealText>,
}

impl Model for Setting {
    ghost use Rattle.house_texts.specs.Settings.{SettingTold};

    ghost Value = { SettingTold };

    ghost view = { λ s. record {
      holders = s.holders;
      genesis = s.genesis;
      house = s.house;
      deals = s.deals.items;
    } };
}

impl Setting {
    /// What the lines declare.
    pub fn of(alloc: Global, declarations: &[Declaration]) -> Result<Setting, NoMemory>
        ensures { IfOk result (λ setting. setting ≡ setting_of declarations.now) }
    {
        let holders = Holders::of(alloc, declarations)?;
        let genesis = genesis_set(alloc, &holders, declarations)?;
        let house = set_id(&genesis);
        let deals = deals_of(alloc, declarations, &holders, &house)?;
        Ok(Setting {
            holders,
            genesis,
            house,
            deals,
        })
    }

    pub fn holders(&self) -> &Holders
        ensures { result.now ≡ self.now.holders }
    {
        &self.holders
    }

    pub fn genesis(&self) -> &Set
        ensures { result.now ≡ self.now.genesis }
    {
        &self.genesis
    }

    pub fn house(&self) -> &Id
        ensures { result.now ≡ self.now.house }
    {
        &self.house
    }

    /// The first deal of the name.
    pub fn deal(&self, name: &Name) -> Option<&DealText>
        ensures { option_copied result ≡ deal_found self.now name.now }
    {
        self.deals.iter().find(|deal| *name == deal.name)
    }

    /// Adds the ids and the names of all deals.
    fn name_deals(&self, directory: &mut Directory) -> Result<(), NoMemory>
        ensures { OnOk result (directory.new ≡ directory.old ++ deal_entries self.now.deals) }
    {
        for deal in self.deals.iter() {
            directory.add(&deal.id, &deal.name)?;
        }
        Ok(())
    }

    /// By which names accounts and deals are printed.
    pub fn directory(&self, alloc: Global) -> Result<Directory, NoMemory>
        ensures { IfOk result (λ directory. directory ≡ listed_of self.now) }
    {
        let mut directory = Directory::new(alloc);
        self.holders.name_in(&mut directory)?;
        self.name_deals(&mut directory)?;
        Ok(directory)
    }
}
