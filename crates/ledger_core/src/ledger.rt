//! Ledgers.

ghost use Rattle.std.specs.Prelude.{◌≡◌, ◌<◌, ◌≤◌, ◌+◌, ◌-◌, ◌^◌, length, [], None, IfErr, IfOk, OnErr, Some};
ghost use Rattle.std.specs.Result.{IsErr, IsErrOf};
ghost use Rattle.escrow_book.specs.History.{free_of, settlement_of};
ghost use Rattle.keeper_core.specs.Knowing.{FailsNext, LooksAtMost};
ghost use Rattle.keeper_core.specs.Leaving.{Leaves, ended, of_store_fault};
ghost use Rattle.keeper_core.specs.Stepping.{WhereTold};
ghost use Rattle.keeper_core.specs.StoreFaults.{HasCause};
ghost use Rattle.ledger_rows.specs.Asking.{Asks};
ghost use Rattle.ledger_rows.specs.Entries.{book_of};
ghost use Rattle.ledger_rows.specs.RowKeys.{free_tab, hold_tab};
ghost use Rattle.ledger_rows.specs.RowReading.{LacksForm, deal_said};
ghost use Rattle.ledger_rows.specs.Scanning.{scan_refusal, amount_at, some_of, AreInOrder, AreAmounts};
ghost use Rattle.cert_core.specs.Sets.{id_of_set};
ghost use Rattle.ledger_acts.specs.Steps.{SubmitsByRows};
ghost use Rattle.claim_core.specs.Limits.{IsSmall};
ghost use Rattle.ledger_claims.specs.Claiming.{ClaimsByRows, AcceptsClaim};
ghost use Rattle.ledger_core.specs.AskFaults.{of_ask_fault};
ghost use Rattle.ledger_core.specs.Claims.{ClaimsFrom, next_number, with_reply};
ghost use Rattle.ledger_core.specs.Openings.{opened_by};
ghost use Rattle.ledger_core.specs.Opens.{OpensByRows, OpensKept, OpensEmpty, OpenCause, counts_of, kept_by};
ghost use Rattle.ledger_core.specs.Questions.{TellsBy, unknown_deal, settlement_refusal, outcome_of, rows_beside, AskCause};
ghost use Rattle.ledger_core.specs.Submits.{SubmitsFrom, number_in};
ghost use Rattle.ledger_core.specs.Statements.{statement_refusal, IsStatement};

use crate::act_reply::ActReply;
use crate::ask_fault::AskFault;
use crate::asking::{Owned, Standing, settlement_at, spendable, standing_of, wide};
use crate::opening::Opening;
use crate::opens::open_over;
use crate::refused::Refused;
use act_text::{HeldRow, Statement};
use cert_core::{Set, set_id};
use claim_core::Claim;
use dh_base::{Id, List, Name, Outcome};
use keeper_core::{Arm, Keeper, MemKeeper, StoreFault};
use key_ring::Envelope;
use ledger_acts::{LedgerFault, LedgerId, Place, submit};
use ledger_claims::{ClaimReply, ShowFault, claim};
use std::alloc::Global;
use std::marker::Model;

/// A ledger over a keeper, in which it keeps all but two counts. A contract sees the keeper, the
/// name, the house, the validators of epoch 0, and how many entries and acts there are.
#[derive(Drop)]
pub struct Ledger<K> {
    alloc: Global,
    keeper: K,
    name: Name,
    house: Id,
    genesis: Set,
    entries: u64,
    acts: u32,
}

impl<K> Model for Ledger<K> {
    ghost use Rattle.ledger_core.specs.Ledgers.{LedgerTold};

    ghost Value = { LedgerTold K };

    ghost view = { λ l. record {
      keeper = l.keeper;
      name = l.name;
      house = l.house;
      genesis = l.genesis;
      entries = l.entries;
      acts = l.acts;
    } };
}

impl<K: Keeper> Ledger<K> {
    /// Opens a ledger over a keeper. Empty tables are filled by one commit; other tables must name
    /// this opening. With every refusal the keeper comes back.
    pub fn open(alloc: Global, keeper: K, opening: &Opening) -> Result<Ledger<K>, Refused<K>>
        // What is kept is what is opened.
        ensures kept { OpensKept (opened_by opening.now) (counts_of result) (K.known keeper)
            (K.known (kept_by result)) }
        ensures empty { OpensEmpty (opened_by opening.now) (counts_of result) (K.known keeper)
            (K.known (kept_by result)) }
        // By the tables, whatever they are.
        ensures rows { OpensByRows (opened_by opening.now) (counts_of result) (K.known keeper)
            (K.known (kept_by result)) }
        ensures cause { IfErr result (λ refused. OpenCause (K.known refused.keeper).tables
            refused.fault) }
        ensures named { IfOk result (λ ledger. (ledger.name ≡ opening.now.name)
            × (ledger.house ≡ id_of_set opening.now.genesis)
            × (ledger.genesis ≡ opening.now.genesis)) }
        // A keeper that has stopped, or is to fail next, opens no ledger.
        ensures fails { FailsNext (K.known keeper) → IsErr result }
    {
        let mut keeper = keeper;
        match open_over(alloc, &mut keeper, opening) {
            Ok(counts) => Ok(Ledger {
                alloc,
                keeper,
                name: opening.name,
                house: set_id(&opening.genesis),
                genesis: opening.genesis.copied(),
                entries: counts.entries,
                acts: counts.acts,
            }),
            Err(fault) => Err(Refused { keeper, fault }),
        }
    }

    /// Gives the keeper back as it is.
    pub fn close(self) -> K
        ensures { result ≡ self.keeper }
    {
        let Ledger { keeper, .. } = self;
        keeper
    }

    /// The keeper.
    pub fn keeper(&self) -> &K
        ensures { result.now ≡ self.now.keeper }
    {
        &self.keeper
    }

    /// Where the next entry would stand.
    fn next_place(&self) -> Place
        ensures acts { result.acts ≡ self.now.acts }
        ensures number { self.now.entries < 2 ^ 64 - 1 → result.number ≡ self.now.entries + 1 }
    {
        Place {
            number: self.entries.saturating_add(1),
            acts: self.acts,
        }
    }

    /// Notes that the act is the entry of that number. A new entry is one act more.
    fn note_act(&mut self, at: u64)
        ensures new { self.old.entries < at → self.old.acts < 2 ^ 32 - 1
            → self.new ≡ record self.old { entries = at; acts = self.old.acts + 1 } }
        ensures repeated { at ≤ self.old.entries → self.new ≡ self.old }
        ensures named { (self.new.name ≡ self.old.name) × (self.new.house ≡ self.old.house)
            × (self.new.keeper ≡ self.old.keeper) }
        ensures genesis { self.new.genesis ≡ self.old.genesis }
    {
        if self.entries < at {
            self.entries = at;
            self.acts = self.acts.saturating_add(1);
        }
    }

    /// Takes the act of an envelope. The reply tells the number of its entry; an act that is
    /// repeated has one entry, and one number.
    pub fn submit(&mut self, env: &Envelope) -> Result<ActReply, LedgerFault>
        requires { length env.now.message < 2 ^ 32 }
        ensures step { SubmitsFrom self.old self.new env.now result
            (K.known self.old.keeper) (K.known self.new.keeper) }
        // Whatever the tables stand for.
        ensures rows { SubmitsByRows env.now (number_in result)
            (K.known self.old.keeper) (K.known self.new.keeper) }
        ensures named { (self.new.name ≡ self.old.name) × (self.new.house ≡ self.old.house)
            × (self.new.genesis ≡ self.old.genesis) }
        ensures rest { OnErr result (self.new ≡ record self.old { keeper = self.new.keeper }) }
        ensures fails { FailsNext (K.known self.old.keeper) → IsErr result }
    {
        let ledger = LedgerId {
            name: self.name,
            house: self.house,
        };
        let place = self.next_place();
        match submit(self.alloc, &mut self.keeper, &ledger, &place, env) {
            Ok(at) => {
                self.note_act(at);
                Ok(ActReply::Done { at })
            }
            Err(fault) => Err(fault),
        }
    }

    /// The number of the next entry.
    fn next_number(&self) -> u64
        ensures { result ≡ next_number self.now }
    {
        self.entries.saturating_add(1)
    }

    /// The validators of epoch 0.
    fn first_set(&self) -> Set
        ensures { result ≡ self.now.genesis }
    {
        self.genesis.copied()
    }

    /// Notes that a claim was replied so. A settlement is one entry more.
    fn note_reply(&mut self, reply: &ClaimReply)
        ensures reply { self.new ≡ with_reply self.old reply.now }
        ensures named { (self.new.name ≡ self.old.name) × (self.new.house ≡ self.old.house)
            × (self.new.keeper ≡ self.old.keeper) }
        ensures genesis { self.new.genesis ≡ self.old.genesis }
    {
        match reply {
            ClaimReply::Settled { .. } => self.entries = self.entries.saturating_add(1),
            ClaimReply::Already { .. } => {}
        }
    }

    /// Settles a deal that is registered and hasn't ended, if the claim certifies records that
    /// decide it: one entry, one commit. A deal that has ended stays as it is, whatever the claim
    /// is, and is answered by how it ended.
    pub fn claim(&mut self, deal: &Id, shown: &Claim) -> Result<ClaimReply, ShowFault>
        requires first { self.old.genesis.epoch ≡ 0 }
        requires small { IsSmall shown.now }
        ensures step { ClaimsFrom self.old self.new deal.now shown.now result
            (K.known self.old.keeper) (K.known self.new.keeper) }
        // What decides an open deal settles it, if the keeper doesn't fail and there is memory.
        ensures accepts { AcceptsClaim self.old.genesis deal.now shown.now result
            (K.known self.old.keeper) (K.known self.new.keeper) }
        // By the tables, whatever they are.
        ensures rows { ClaimsByRows self.old.genesis (next_number self.old) deal.now shown.now
            result (K.known self.old.keeper) (K.known self.new.keeper) }
        ensures named { (self.new.name ≡ self.old.name) × (self.new.house ≡ self.old.house)
            × (self.new.genesis ≡ self.old.genesis) }
        ensures rest { OnErr result (self.new ≡ record self.old { keeper = self.new.keeper }) }
        ensures fails { FailsNext (K.known self.old.keeper)
            → IsErrOf result (ShowFault.Store StoreFault.Keeper) }
    {
        wide(deal);
        let number = self.next_number();
        let genesis = self.first_set();
        match claim(self.alloc, &mut self.keeper, &genesis, number, deal, shown) {
            Ok(reply) => {
                self.note_reply(&reply);
                Ok(reply)
            }
            Err(fault) => Err(fault),
        }
    }

    /// How a deal has ended here, if it has.
    pub fn settlement(&mut self, deal: &Id) -> Result<Option<Outcome>, AskFault>
        ensures tells { TellsBy of_ask_fault (unknown_deal deal.now)
            (λ opened entries settled. settled
            ≡ settlement_of (book_of opened.rows entries) deal.now) result
            (K.known self.old.keeper) (K.known self.new.keeper) }
        // By the tables, whatever they are.
        ensures asks { Asks of_ask_fault (λ tables. 8) (settlement_refusal deal.now)
            (λ tables outcome. outcome ≡ outcome_of (deal_said deal.now tables)) result
            (K.known self.old.keeper) (K.known self.new.keeper) }
        ensures cause { IfErr result (AskCause (K.known self.new.keeper).tables) }
        ensures fails { FailsNext (K.known self.old.keeper)
            → IsErrOf result (AskFault.Store StoreFault.Keeper) }
        ensures rest { self.new ≡ record self.old { keeper = self.new.keeper } }
    {
        settlement_at(self.alloc, &mut self.keeper, deal)
    }

    /// What an account can spend: the amounts above 0, by their assets.
    pub fn account(&mut self, account: &Id) -> Result<List<HeldRow>, StoreFault>
        ensures tells { TellsBy of_store_fault (λ entries. None)
            (λ opened entries. AreAmounts (some_of
            (free_of (book_of opened.rows entries) account.now))) result
            (K.known self.old.keeper) (K.known self.new.keeper) }
        // By the tables, whatever they are.
        ensures asks { Asks of_store_fault (rows_beside free_tab) (scan_refusal free_tab)
            (λ tables. AreAmounts (amount_at free_tab account.now.0 tables)) result
            (K.known self.old.keeper) (K.known self.new.keeper) }
        ensures order { IfOk result AreInOrder }
        ensures cause { IfErr result (HasCause LacksForm (K.known self.new.keeper).tables) }
        ensures fails { FailsNext (K.known self.old.keeper) → IsErrOf result StoreFault.Keeper }
        ensures rest { self.new ≡ record self.old { keeper = self.new.keeper } }
    {
        wide(account);
        spendable(self.alloc, &mut self.keeper, account)
    }

    /// What a ledger tells a party of a deal.
    pub fn statement(&mut self, deal: &Id, party: &Id) -> Result<Statement, AskFault>
        ensures tells { TellsBy of_ask_fault (statement_refusal deal.now party.now)
            (λ opened entries. IsStatement self.old deal.now party.now
            (book_of opened.rows entries)) result
            (K.known self.old.keeper) (K.known self.new.keeper) }
        // Whatever the keeper tells.
        ensures order { IfOk result (λ statement. AreInOrder statement.rows) }
        ensures leaves { Leaves [] (ended of_ask_fault result) (K.known self.old.keeper)
            (K.known self.new.keeper) }
        ensures looked { WhereTold (K.known self.old.keeper) (K.known self.new.keeper) (λ tables.
            LooksAtMost (rows_beside hold_tab tables) (K.known self.old.keeper)
            (K.known self.new.keeper)) }
        ensures cause { IfErr result (AskCause (K.known self.new.keeper).tables) }
        ensures fails { FailsNext (K.known self.old.keeper)
            → IsErrOf result (AskFault.Store StoreFault.Keeper) }
        ensures rest { self.new ≡ record self.old { keeper = self.new.keeper } }
    {
        wide(deal);
        wide(party);
        let standing = standing_of(self.alloc, &mut self.keeper, deal, party)?;
        let Standing { settled, owned } = standing;
        let Owned { moves, rows } = owned;
        Ok(Statement {
            house: self.house,
            ledger: self.name,
            deal: *deal,
            party: *party,
            at: self.entries,
            moves,
            rows,
            settled,
        })
    }
}

impl Ledger<MemKeeper> {
    /// Tells the keeper to fail or to stop.
    pub fn arm(&mut self, what: Arm)
        ensures { self.new ≡ record self.old {
          keeper = record self.old.keeper { armed = Some what };
        } }
    {
        self.keeper.arm(what);
    }
}
