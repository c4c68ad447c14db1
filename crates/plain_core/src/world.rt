//! All plain ledgers and the one log that they read.

ghost use Rattle.std.specs.Prelude.{◌≡◌, ◌-◌, ◌≤◌, length, position, false, IfOk};
ghost use Rattle.escrow_book.specs.Base.{greatest_turn};
ghost use Rattle.std.specs.Str.{bytes_eq};
ghost use Rattle.plain_script.specs.BoundNames.{members_of};
ghost use Rattle.plain_core.specs.Given.{GivesStep, AreWithin};
ghost use Rattle.plain_core.specs.Starts.{started_world};
ghost use Rattle.plain_core.specs.Reports.{is_out_of_range};
ghost use Rattle.plain_core.specs.declared.reply.Reply.TheVariants.{RefusedClaim as IsRefusedClaim};
ghost use Rattle.plain_core.specs.declared.claim_refusal.ClaimRefusal.TheVariants.{UnknownDeal as IsUnknownDeal};
ghost use Rattle.plain_core.specs.Ledgers.{
  register_answer,
  escrow_answer,
  transfer_answer,
  claim_answer,
  start_answer,
  vote_answer,
  at_ledger,
  act_at,
  with_ledgers,
  with_log,
  step_of,
};

use crate::act_refusal::ActRefusal;
use crate::claim_refusal::ClaimRefusal;
use crate::ledger::Ledger;
use crate::reply::Reply;
use crate::voting;
use dh_base::{Name, NoMemory, Outcome};
use plain_script::{Declaration, Declarations, Event};
use std::alloc::Global;
use std::marker::Model;
use vote_log::Records;

/// The most records of the one log.
const MOST_RECORDS: u32 = 4096;

/// All ledgers of a script and the one log that they read.
#[derive(Drop)]
pub struct World {
    ledgers: Vec<Ledger>,
    log: Records,
}

impl Model for World {
    ghost use Rattle.plain_core.specs.Ledgers.{World};

    ghost Value = { World };

    ghost view = { λ w. record { ledgers = w.ledgers.items; log = w.log } };
}

/// The ledgers that the declarations start, in the order of their lines.
fn start_ledgers(alloc: Global, declarations: &Declarations) -> Result<Vec<Ledger>, NoMemory>
    ensures { IfOk result (λ ledgers. ledgers.items ≡ (started_world declarations.now).ledgers) }
{
    let mut ledgers = Vec::new(alloc);
    for declaration in declarations.as_slice() {
        if let Declaration::Ledger { name } = declaration {
            ledgers.push(Ledger::start(alloc, declarations, name)?)?;
        }
    }
    Ok(ledgers)
}

impl World {
    /// The ledgers as the script's declarations start them, and an empty log.
    pub fn start(alloc: Global, declarations: &Declarations) -> Result<World, NoMemory>
        ensures { IfOk result (λ world. world ≡ started_world declarations.now) }
    {
        Ok(World {
            ledgers: start_ledgers(alloc, declarations)?,
            log: Records::new(alloc, MOST_RECORDS),
        })
    }

    /// The ledgers, in the order of their declarations.
    pub fn ledgers(&self) -> &[Ledger]
        ensures { result.now ≡ self.now.ledgers }
    {
        self.ledgers.as_slice()
    }

    /// The place of the ledger of this name.
    fn place_of(&self, name: &Name) -> Option<usize>
        ensures { result ≡ position (λ ledger. bytes_eq name.now ledger.name) self.now.ledgers }
    {
        self.ledgers.iter().position(|ledger| name == ledger.name())
    }

    fn register(
        &mut self,
        alloc: Global,
        declarations: &Declarations,
        ledger: &Name,
        deal: &Name,
        party: &Name,
    ) -> Result<Reply, NoMemory>
        requires { AreWithin (greatest_turn - 1) self.old.ledgers }
        ensures { GivesStep result self.new
            (act_at self.old ledger.now
            (register_answer (members_of declarations.now deal.now) deal.now party.now)) }
    {
        match self.place_of(ledger) {
            None => Ok(Reply::RefusedAct(ActRefusal::UnknownDeal)),
            Some(place) => self.ledgers[place].register(
                alloc,
                declarations.members(deal),
                deal,
                party,
            ),
        }
    }

    fn escrow(
        &mut self,
        ledger: &Name,
        deal: &Name,
        party: &Name,
        asset: &Name,
        amount: u64,
    ) -> Result<Reply, NoMemory>
        requires { AreWithin (greatest_turn - 1) self.old.ledgers }
        ensures { GivesStep result self.new
            (act_at self.old ledger.now (escrow_answer deal.now party.now asset.now amount)) }
    {
        match self.place_of(ledger) {
            None => Ok(Reply::RefusedAct(ActRefusal::UnknownDeal)),
            Some(place) => self.ledgers[place].escrow(deal, party, asset, amount),
        }
    }

    fn transfer(
        &mut self,
        ledger: &Name,
        deal: &Name,
        from: &Name,
        turn: u32,
        to: &Name,
        asset: &Name,
        amount: u64,
    ) -> Result<Reply, NoMemory>
        requires { AreWithin (greatest_turn - 1) self.old.ledgers }
        ensures { GivesStep result self.new
            (act_at self.old ledger.now
            (transfer_answer deal.now from.now turn to.now asset.now amount)) }
    {
        match self.place_of(ledger) {
            None => Ok(Reply::RefusedAct(ActRefusal::UnknownDeal)),
            Some(place) => self.ledgers[place].transfer(deal, from, turn, to, asset, amount),
        }
    }

    fn claim(&mut self, ledger: &Name, deal: &Name, len: u32) -> Result<Reply, NoMemory>
        requires few { AreWithin (greatest_turn - 1) self.old.ledgers }
        requires within { len ≤ length self.old.log.entries }
        ensures { GivesStep result self.new
            (with_ledgers self.old
            (at_ledger ledger.now (claim_answer self.old.log.entries deal.now len)
            (IsRefusedClaim IsUnknownDeal) self.old.ledgers)) }
    {
        match self.place_of(ledger) {
            None => Ok(Reply::RefusedClaim(ClaimRefusal::UnknownDeal)),
            Some(place) => self.ledgers[place].claim(self.log.recs(), deal, len),
        }
    }

    fn start_deal(
        &mut self,
        declarations: &Declarations,
        deal: &Name,
        party: &Name,
    ) -> Result<Reply, NoMemory>
        ensures { GivesStep result self.new
            (with_log self.old
            (start_answer (members_of declarations.now deal.now) deal.now party.now self.old.log)) }
    {
        voting::start_deal(&mut self.log, declarations.members(deal), deal, party)
    }

    fn vote(
        &mut self,
        declarations: &Declarations,
        choice: Outcome,
        deal: &Name,
        party: &Name,
    ) -> Result<Reply, NoMemory>
        ensures { GivesStep result self.new
            (with_log self.old
            (vote_answer (members_of declarations.now deal.now) choice deal.now party.now
            self.old.log)) }
    {
        voting::vote(
            &mut self.log,
            declarations.members(deal),
            choice,
            deal,
            party,
        )
    }

    /// Whether a number of the event exceeds its field, or the log.
    pub fn is_out_of_range(&self, event: &Event) -> bool
        ensures { result ≡ is_out_of_range self.now event.now }
    {
        match event {
            Event::Transfer { turn, .. } => turn.is_none(),
            Event::Claim { len, .. } => match len {
                None => true,
                Some(len) => self.log.len() < *len as usize,
            },
            _ => false,
        }
    }

    /// What happens at an event.
    pub fn step(
        &mut self,
        alloc: Global,
        declarations: &Declarations,
        event: &Event,
    ) -> Result<Reply, NoMemory>
        requires few { AreWithin (greatest_turn - 1) self.old.ledgers }
        requires in_range { is_out_of_range self.old event.now ≡ false }
        ensures { GivesStep result self.new (step_of declarations.now self.old event.now) }
    {
        match event {
            Event::Register {
                ledger,
                deal,
                party,
            } => self.register(alloc, declarations, ledger, deal, party),
            Event::Escrow {
                ledger,
                deal,
                party,
                asset,
                amount,
            } => self.escrow(ledger, deal, party, asset, *amount),
            Event::Transfer {
                ledger,
                deal,
                from,
                turn,
                to,
                asset,
                amount,
            } => self.transfer(ledger, deal, from, turn.unwrap_or(0), to, asset, *amount),
            Event::Start { deal, party } => self.start_deal(declarations, deal, party),
            Event::Commit { deal, party } => self.vote(declarations, Outcome::Commit, deal, party),
            Event::Abort { deal, party } => self.vote(declarations, Outcome::Abort, deal, party),
            Event::Claim { ledger, deal, len } => self.claim(ledger, deal, len.unwrap_or(0)),
        }
    }
}
