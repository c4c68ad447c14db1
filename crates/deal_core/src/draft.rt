//! What the lines of a deal's text come to so far.

ghost use Rattle.std.specs.Prelude.{◌≡◌, ◌+◌, ◌-◌, ◌^◌, ◌≤◌, ◌<◌, nat_lt, length, IfOk, IfNone, OnOk, Some, None};
ghost use Rattle.dh_base.specs.Limits.{most_parties};
ghost use Rattle.line_text.specs.Seen.{line_of};
ghost use Rattle.deal_core.specs.Deals.{total_of};
ghost use Rattle.deal_core.specs.Drafts.{
  no_lines,
  lines_in,
  is_empty,
  is_ninth,
  party_fault,
  step_fault,
  may_stand,
  rule_fault,
  said_fault,
  with_indices,
  with_line,
  with_said,
  line_fault,
  after_line,
};

use crate::deal_fault::DealFault;
use crate::deal_line::{DealLine, NamedStep};
use crate::party::{Party, index_of_name, is_account, is_party};
use crate::saying::said_by;
use crate::step::Step;
use crate::step_list::{is_on, ledger_count, total};
use dh_base::{GREATEST_AMOUNT, Id, MOST_PARTIES, Name, NoMemory};
use line_text::TextLine;
use std::alloc::Global;
use std::marker::Model;

/// The fewest parties of a deal.
const LEAST_PARTIES: usize = 2;

/// The most steps of a deal.
const MOST_STEPS: usize = 64;

/// The most ledgers that the steps of a deal name.
const MOST_LEDGERS: usize = 8;

/// What the lines of a deal's text come to so far. None of them has a fault.
#[derive(Drop)]
pub(crate) struct Draft {
    pub(crate) name: Option<Name>,
    pub(crate) house: Option<Id>,
    pub(crate) parties: Vec<Party>,
    pub(crate) steps: Vec<Step>,
}

impl Model for Draft {
    ghost use Rattle.deal_core.specs.Drafts.{Draft as Told};
    ghost use Rattle.deal_core.specs.Kept.{IsDraft};

    ghost Value = { Told };

    ghost view = { λ d. record {
      name = d.name;
      house = d.house;
      parties = d.parties.items;
      steps = d.steps.items;
    } };

    ghost invariant = { λ d. IsDraft d.parties.items d.steps.items };
}

/// Whether a step on the ledger would be on a ninth one.
fn is_ninth(steps: &[Step], ledger: &Name) -> bool
    ensures { result ≡ is_ninth steps.now ledger.now }
{
    !is_on(steps, ledger) && ledger_count(steps) >= MOST_LEDGERS
}

/// Whether the steps and this amount move more of the asset on the ledger than an amount may be.
fn exceeds(steps: &[Step], ledger: &Name, asset: &Name, amount: u64) -> bool
    requires { total_of steps.now ledger.now asset.now < 2 ^ 63 }
    ensures { result ≡ nat_lt (2 ^ 63 - 1) (total_of steps.now ledger.now asset.now + amount) }
{
    let sum = u128::from(total(steps, ledger, asset)) + u128::from(amount);
    sum > u128::from(GREATEST_AMOUNT)
}

/// The step with the indices of its parties.
fn with_indices(parties: &[Party], step: &NamedStep) -> Step
    requires { length parties.now ≤ most_parties }
    ensures { result ≡ with_indices parties.now step.now }
{
    Step {
        from: index_of_name(parties, &step.from),
        to: index_of_name(parties, &step.to),
        ledger: step.ledger,
        asset: step.asset,
        amount: step.amount,
    }
}

impl Draft {
    /// No lines.
    pub(crate) fn new(alloc: Global) -> Draft
        ensures { result ≡ no_lines }
    {
        Draft {
            name: None,
            house: None,
            parties: Vec::new(alloc),
            steps: Vec::new(alloc),
        }
    }

    /// How many lines there are so far.
    pub(crate) fn lines(&self) -> u32
        ensures value { result ≡ lines_in self.now }
        ensures few { result ≤ 82 }
    {
        let heads = u32::from(self.name.is_some()) + u32::from(self.house.is_some());
        heads + self.parties.len() as u32 + self.steps.len() as u32
    }

    /// The fault of a party line of this number.
    fn party_fault(&self, line: u32, party: &Party) -> Option<DealFault>
        ensures { result ≡ party_fault line self.now.parties party.now }
    {
        let parties = self.parties.as_slice();
        if is_party(parties, &party.name) || is_account(parties, &party.account) {
            return Some(DealFault::PartyTwice { line });
        }
        if parties.len() >= MOST_PARTIES {
            return Some(DealFault::TooMany { line });
        }
        None
    }

    /// The fault of a step line of this number.
    fn step_fault(&self, line: u32, step: &NamedStep) -> Option<DealFault>
        ensures { result ≡ step_fault line self.now.parties self.now.steps step.now }
    {
        let parties = self.parties.as_slice();
        let steps = self.steps.as_slice();
        if !(is_party(parties, &step.from) && is_party(parties, &step.to)) {
            return Some(DealFault::UnknownParty { line });
        }
        if step.from == step.to {
            return Some(DealFault::SelfStep { line });
        }
        if step.amount == 0 {
            return Some(DealFault::ZeroAmount { line });
        }
        if steps.len() >= MOST_STEPS || is_ninth(steps, &step.ledger) {
            return Some(DealFault::TooMany { line });
        }
        if exceeds(steps, &step.ledger, &step.asset, step.amount) {
            return Some(DealFault::SumTooLarge { line });
        }
        None
    }

    /// Whether a line that says this may stand next.
    fn may_stand(&self, said: &DealLine) -> bool
        ensures { result ≡ may_stand self.now said.now }
    {
        match said {
            DealLine::Deal { .. } => self.name.is_none(),
            DealLine::House { .. } => self.name.is_some() && self.house.is_none(),
            DealLine::Party { .. } => self.house.is_some() && self.steps.is_empty(),
            DealLine::Step { .. } => self.parties.len() >= LEAST_PARTIES,
        }
    }

    /// The fault of the next line, where it says this.
    fn fault(&self, said: &DealLine) -> Option<DealFault>
        ensures { result ≡ said_fault self.now (Some said.now) }
    {
        let line = self.lines() + 1;
        if !self.may_stand(said) {
            return Some(DealFault::BadLine { line });
        }
        match said {
            DealLine::Deal { .. } | DealLine::House { .. } => None,
            DealLine::Party { party } => self.party_fault(line, party),
            DealLine::Step { step } => self.step_fault(line, step),
        }
    }

    /// Takes what the next line says, where that has no fault.
    fn take(&mut self, said: DealLine) -> Result<(), NoMemory>
        requires { said_fault self.old (Some said) ≡ None }
        ensures { OnOk result (self.new ≡ with_line self.old said) }
    {
        match said {
            DealLine::Deal { name } => self.name = Some(name),
            DealLine::House { house } => self.house = Some(house),
            DealLine::Party { party } => self.parties.push(party)?,
            DealLine::Step { step } => {
                let step = with_indices(self.parties.as_slice(), &step);
                self.steps.push(step)?;
            }
        }
        Ok(())
    }

    /// Takes the next line, or answers its fault.
    pub(crate) fn take_line(&mut self, line: &TextLine<'_>) -> Result<Option<DealFault>, NoMemory>
        ensures fault { IfOk result (λ fault. fault ≡ line_fault self.old (line_of line.now)) }
        ensures taken { IfOk result (λ fault.
            IfNone fault (self.new ≡ after_line self.old (line_of line.now))) }
    {
        let Some(said) = said_by(line) else {
            return Ok(Some(DealFault::BadLine {
                line: self.lines() + 1,
            }));
        };
        if let Some(fault) = self.fault(&said) {
            return Ok(Some(fault));
        }
        self.take(said)?;
        Ok(None)
    }
}
