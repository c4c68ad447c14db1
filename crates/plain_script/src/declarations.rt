//! What the lines of a script have declared.

ghost use Rattle.std.specs.Prelude.{◌≡◌, ◌+◌, ◌++◌, ◌∷◌, [], ◌-◌, ◌^◌, ◌<◌, ◌≤◌, IfOk, OnOk, OnErr, IsTrue, Ok, Some, None, length, count_by, List};
ghost use Rattle.std.specs.List.{list_any};
ghost use Rattle.plain_script.specs.BoundNames.{
  is_ledger,
  is_deal,
  is_party,
  is_thing,
  is_bound,
  parties_of,
  members_of,
  with_names,
  are_different,
  opened_of,
  is_ledger_line,
  is_deal_line,
  is_opening_line,
  opens_on,
  opens_row,
};
ghost use Rattle.plain_script.specs.OpeningRows.{is_good_row, is_good_line};
ghost use Rattle.plain_script.specs.Rules.{
  declaration_rule,
  ledger_rule,
  open_rule,
  deal_rule,
  are_known,
  names_thing,
  rule_with_parties,
  taken_unless,
  DeclareByRules,
};

use crate::declaration::Declaration;
use crate::event::Event;
use dh_base::{GREATEST_AMOUNT, Name, NoMemory};
use script_lines::ScriptRule;
use std::alloc::Global;
use std::collections::BTreeSet;
use std::marker::Model;

/// The most ledgers.
const MOST_LEDGERS: usize = 8;

/// The most deals.
const MOST_DEALS: usize = 64;

/// The most parties of a deal.
const MOST_MEMBERS: usize = 16;

/// The most parties in all.
const MOST_PARTIES: usize = 256;

/// The most opening rows of a script, and so of a ledger too.
const MOST_ROWS: usize = 1024;

/// The declarations so far. A contract sees their list.
#[derive(Drop)]
pub struct Declarations {
    declarations: Vec<Declaration>,
    parties: BTreeSet<Name>,
}

impl Model for Declarations {
    ghost use Rattle.std.specs.Prelude.{List, ◌≡◌};
    ghost use Rattle.plain_script.specs.declared.declaration.Declaration.{Declaration};

    ghost Value = { List Declaration };

    ghost use Rattle.plain_script.specs.Kept.{AreKept};

    ghost view = { λ h. h.declarations.items };

    ghost invariant = { λ h. AreKept h.declarations.items h.parties.keys };
}

/// What the rows of the ledger open of the asset.
fn opened(declarations: &[Declaration], ledger: &Name, asset: &Name) -> u64
    requires { opened_of declarations.now ledger.now asset.now < 2 ^ 63 }
    ensures { result ≡ opened_of declarations.now ledger.now asset.now }
{
    let mut total = 0;
    for declaration in declarations {
        if declaration.opens_asset(ledger, asset) {
            total += declaration.amount_opened();
        }
    }
    total
}

/// The names with further names.
pub fn with_names(mut names: BTreeSet<Name>, further: &[Name]) -> Result<BTreeSet<Name>, NoMemory>
    ensures { IfOk result (λ all. all.keys ≡ with_names names.keys further.now) }
{
    for name in further {
        names.insert(*name)?;
    }
    Ok(names)
}

/// Whether no name stands twice.
fn are_different(alloc: Global, names: &[Name]) -> Result<bool, NoMemory>
    ensures { IfOk result (λ different. different ≡ are_different names.now) }
{
    let once = with_names(BTreeSet::new(alloc), names)?;
    Ok(once.len() == names.len())
}

impl Declarations {
    /// No declarations.
    pub fn new(alloc: Global) -> Declarations
        ensures { result ≡ [] }
    {
        Declarations {
            declarations: Vec::new(alloc),
            parties: BTreeSet::new(alloc),
        }
    }

    /// The declarations, in the order of their lines.
    pub fn as_slice(&self) -> &[Declaration]
        ensures value { result.now ≡ self.now }
        ensures rules { DeclareByRules [] self.now }
    {
        self.declarations.as_slice()
    }

    /// The names of the parties, in ascending order.
    pub fn parties(&self) -> &BTreeSet<Name>
        ensures { result.now.keys ≡ parties_of self.now }
    {
        &self.parties
    }

    /// Whether a ledger has the name.
    pub fn is_ledger(&self, name: &Name) -> bool
        ensures { result ≡ is_ledger self.now name.now }
    {
        self.declarations.iter().any(|d| d.is_ledger_named(name))
    }

    /// Whether a deal has the name.
    pub fn is_deal(&self, name: &Name) -> bool
        ensures { result ≡ is_deal self.now name.now }
    {
        self.declarations.iter().any(|d| d.is_deal_named(name))
    }

    /// Whether a party has the name.
    pub fn is_party(&self, name: &Name) -> bool
        ensures { result ≡ is_party self.now name.now }
    {
        self.parties.contains(name)
    }

    /// Whether the name is that of a ledger or of a deal.
    fn is_thing(&self, name: &Name) -> bool
        ensures { result ≡ is_thing self.now name.now }
    {
        self.is_ledger(name) || self.is_deal(name)
    }

    /// Whether anything has the name.
    fn is_bound(&self, name: &Name) -> bool
        ensures { result ≡ is_bound self.now name.now }
    {
        self.is_thing(name) || self.is_party(name)
    }

    /// How many ledgers are declared.
    fn ledger_count(&self) -> usize
        ensures { result ≡ count_by is_ledger_line self.now }
    {
        self.declarations.iter().filter(|d| d.is_ledger()).count()
    }

    /// How many deals are declared.
    fn deal_count(&self) -> usize
        ensures { result ≡ count_by is_deal_line self.now }
    {
        self.declarations.iter().filter(|d| d.is_deal()).count()
    }

    /// How many opening rows are declared, on all ledgers.
    fn opening_count(&self) -> usize
        ensures { result ≡ count_by is_opening_line self.now }
    {
        self.declarations.iter().filter(|d| d.is_opening()).count()
    }

    /// How many opening rows the ledger has.
    fn row_count(&self, ledger: &Name) -> usize
        ensures { result ≡ count_by (opens_on ledger.now) self.now }
    {
        self.declarations
            .iter()
            .filter(|d| d.opens_on(ledger))
            .count()
    }

    /// What the rows of the ledger open of the asset.
    fn opened(&self, ledger: &Name, asset: &Name) -> u64
        ensures value { result ≡ opened_of self.now ledger.now asset.now }
        ensures small { result < 2 ^ 63 }
    {
        opened(self.declarations.as_slice(), ledger, asset)
    }

    /// Whether the ledger has an opening row of the party for the asset.
    fn has_row(&self, ledger: &Name, asset: &Name, party: &Name) -> bool
        ensures { result ≡ list_any (opens_row ledger.now asset.now party.now) self.now }
    {
        self.declarations
            .iter()
            .any(|d| d.opens_row(ledger, asset, party))
    }

    /// Whether a row that is declared next is good.
    #[tactic(auto, using(crate::proofs::OpeningRows::good_line_same))]
    fn is_good_row(&self, ledger: &Name, asset: &Name, party: &Name, amount: u64) -> bool
        ensures { result ≡ is_good_row self.now ledger.now asset.now party.now amount }
    {
        self.is_good_line(ledger, asset, party, amount)
    }

    /// The same by the lines so far, of which no rows are made.
    fn is_good_line(&self, ledger: &Name, asset: &Name, party: &Name, amount: u64) -> bool
        ensures { result ≡ is_good_line self.now ledger.now asset.now party.now amount }
    {
        if self.row_count(ledger) >= MOST_ROWS {
            return false;
        }
        if amount == 0 {
            return false;
        }
        if self.has_row(ledger, asset, party) {
            return false;
        }
        amount <= GREATEST_AMOUNT - self.opened(ledger, asset)
    }

    /// The names of the parties with those of one more declaration.
    fn parties_with(&self, declaration: &Declaration) -> Result<BTreeSet<Name>, NoMemory>
        ensures { IfOk result (λ parties. parties.keys
            ≡ parties_of (self.now ++ declaration.now ∷ [])) }
    {
        let parties = self.parties.clone()?;
        with_names(parties, declaration.parties())
    }

    /// The rule that a ledger of this name breaks.
    fn ledger_rule(&self, name: &Name) -> Option<ScriptRule>
        ensures { result ≡ ledger_rule self.now name.now }
    {
        if self.is_bound(name) {
            return Some(ScriptRule::NameTwice);
        }
        if self.ledger_count() >= MOST_LEDGERS {
            return Some(ScriptRule::TooMany);
        }
        None
    }

    /// The rule that an opening row breaks, where there are so many parties with its own.
    fn open_rule(
        &self,
        ledger: &Name,
        asset: &Name,
        party: &Name,
        amount: u64,
        parties: usize,
    ) -> Option<ScriptRule>
        ensures { result ≡ open_rule self.now ledger.now asset.now party.now amount parties }
    {
        if self.is_thing(party) {
            return Some(ScriptRule::NameTwice);
        }
        if !self.is_ledger(ledger) {
            return Some(ScriptRule::UnknownName);
        }
        if !self.is_good_row(ledger, asset, party, amount) {
            return Some(ScriptRule::BadOpening);
        }
        if self.opening_count() >= MOST_ROWS || parties > MOST_PARTIES {
            return Some(ScriptRule::TooMany);
        }
        None
    }

    /// Whether a party of the deal has the name of a ledger or of a deal, the deal itself among
    /// them.
    fn has_thing_among(&self, deal: &Name, parties: &[Name]) -> bool
        ensures { result ≡ list_any (λ party. names_thing self.now deal.now party) parties.now }
    {
        parties
            .iter()
            .any(|party| party == deal || self.is_thing(party))
    }

    /// The rule that a deal breaks, where there are so many parties with its own.
    fn deal_rule(
        &self,
        alloc: Global,
        name: &Name,
        members: &[Name],
        parties: usize,
    ) -> Result<Option<ScriptRule>, NoMemory>
        ensures { IfOk result (λ rule. rule ≡ deal_rule self.now name.now members.now parties) }
    {
        if members.len() < 2 || !are_different(alloc, members)? {
            return Ok(Some(ScriptRule::BadLine));
        }
        if self.is_bound(name) || self.has_thing_among(name, members) {
            return Ok(Some(ScriptRule::NameTwice));
        }
        if members.len() > MOST_MEMBERS
            || self.deal_count() >= MOST_DEALS
            || parties > MOST_PARTIES
        {
            return Ok(Some(ScriptRule::TooMany));
        }
        Ok(None)
    }

    /// The rule that the declaration breaks behind those so far, where there are so many parties
    /// with its own.
    fn declaration_rule(
        &self,
        alloc: Global,
        declaration: &Declaration,
        parties: usize,
    ) -> Result<Option<ScriptRule>, NoMemory>
        ensures { IfOk result (λ rule. rule ≡ rule_with_parties self.now declaration.now parties) }
    {
        match declaration {
            Declaration::Ledger { name } => Ok(self.ledger_rule(name)),
            Declaration::Open {
                ledger,
                asset,
                party,
                amount,
            } => Ok(self.open_rule(ledger, asset, party, *amount, parties)),
            Declaration::Deal {
                name,
                parties: members,
            } => self.deal_rule(alloc, name, members.as_slice(), parties),
        }
    }

    /// Takes a declaration, or answers the rule that it breaks.
    pub fn declare(
        &mut self,
        alloc: Global,
        declaration: Declaration,
    ) -> Result<Option<ScriptRule>, NoMemory>
        ensures rule { IfOk result (λ rule. rule ≡ declaration_rule self.old declaration) }
        ensures taken { IfOk result (λ rule. self.new ≡ taken_unless rule self.old declaration) }
        ensures unchanged { OnErr result (self.new ≡ self.old) }
    {
        let parties = self.parties_with(&declaration)?;
        if let Some(rule) = self.declaration_rule(alloc, &declaration, parties.len())? {
            return Ok(Some(rule));
        }
        self.declarations.push(declaration)?;
        self.parties = parties;
        Ok(None)
    }

    /// Whether each name that the event uses is that of a ledger, a deal or a party, as its place
    /// asks.
    pub fn knows(&self, event: &Event) -> bool
        ensures { result ≡ are_known self.now event.now }
    {
        match event {
            Event::Register {
                ledger,
                deal,
                party,
            }
            | Event::Escrow {
                ledger,
                deal,
                party,
                ..
            } => self.is_ledger(ledger) && self.is_deal(deal) && self.is_party(party),
            Event::Transfer {
                ledger,
                deal,
                from,
                to,
                ..
            } => {
                self.is_ledger(ledger)
                    && self.is_deal(deal)
                    && self.is_party(from)
                    && self.is_party(to)
            }
            Event::Start { deal, party }
            | Event::Commit { deal, party }
            | Event::Abort { deal, party } => self.is_deal(deal) && self.is_party(party),
            Event::Claim { ledger, deal, .. } => self.is_ledger(ledger) && self.is_deal(deal),
        }
    }

    /// The parties of the deal of this name, in their order; none where there is no such deal.
    pub fn members(&self, deal: &Name) -> &[Name]
        ensures value { result.now ≡ members_of self.now deal.now }
        ensures rules { DeclareByRules [] self.now }
    {
        members(self.declarations.as_slice(), deal)
    }
}

/// The parties of the deal of this name among the declarations.
fn members<'a>(declarations: &'a [Declaration], deal: &Name) -> &'a [Name]
    ensures { result.now ≡ members_of declarations.now deal.now }
{
    for declaration in declarations {
        if let Declaration::Deal { name, parties } = declaration {
            if deal == name {
                return parties.as_slice();
            }
        }
    }
    &[]
}
