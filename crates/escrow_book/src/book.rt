//! The book of one ledger.

ghost use Rattle.std.specs.Prelude.{◌≡◌, ◌<◌, true, None, IsTrue, IsOk, IfOk, OnOk, IfErr, OnErr, IsOkUnless};
ghost use Rattle.std.specs.Option.{option_copied};
ghost use Rattle.std.specs.Result.{result_err};
ghost use Rattle.escrow_book.specs.Opening.{is_good_opening, opening_of};
ghost use Rattle.escrow_book.specs.History.{History, with_change, parties_of, settlement_of, is_known, is_party, is_in, moves_of, if_abort_of, if_commit_of, free_of};
ghost use Rattle.escrow_book.specs.Refused.{IsRefusal, unknown_deal, not_a_party, deal_settled, wrong_turn, zero, zero_or_self, short, escrow_refusal, transfer_refusal, pay_refusal, settle_refusal};
ghost use Rattle.escrow_book.specs.Base.{carried_commit, carried_abort, carried_moves, greatest_turn};
ghost use Rattle.escrow_book.specs.PartRows.{no_rows, first_fault, part_of, IsPartRefusal};
ghost use Rattle.escrow_book.specs.Flow.{carried_out};
ghost use Rattle.escrow_book.specs.Kept.{LeavesDeals};
ghost use Rattle.escrow_book.specs.Reached.{started, registered, are_parties, IsAccepted, IsGrown};

use crate::change::Change;
use crate::entry::{Entry, note_end};
use crate::fault::BookFault;
use crate::known_deal::{KnownDeal, find_deal, note_outcome};
use crate::opening::row_amount;
use crate::part::take_rows;
use crate::part_fault::PartFault;
use crate::row::{BookRow, HoldRow, MovesRow, find_hold, find_moves};
use dh_base::{Id, List, Name, NoMemory, Outcome};
use std::alloc::Global;
use std::marker::Model;

/// The book of one ledger. A contract sees its history: the opening rows and the accepted changes.
#[derive(Drop)]
pub struct Book {
    alloc: Global,
    rows: Vec<(Id, Name, u64)>,
    deals_before: Vec<KnownDeal>,
    holds_before: Vec<HoldRow>,
    moves_before: Vec<MovesRow>,
    entries: Vec<Entry>,
    deals: Vec<KnownDeal>,
}

impl Model for Book {
    ghost use Rattle.escrow_book.specs.History.{History};

    ghost Value = { History };

    ghost use Rattle.escrow_book.specs.Kept.{base_kept, history_kept, IsKept};

    ghost view = { λ book. history_kept
        (base_kept book.rows.items book.deals_before.items
        book.holds_before.items book.moves_before.items)
        book.entries.items };

    ghost invariant = { λ book. IsKept
        (history_kept (base_kept book.rows.items book.deals_before.items
        book.holds_before.items book.moves_before.items)
        book.entries.items) book.entries.items book.deals.items };
}

impl Book {
    /// The book of a ledger on which these accounts hold these amounts.
    pub fn start(alloc: Global, rows: &[(Id, Name, u64)]) -> Result<Book, NoMemory>
        requires { IsTrue (is_good_opening rows.now) }
        ensures { IfOk result (λ book. book ≡ started rows.now) }
    {
        let rows = Vec::from_slice(alloc, rows)?;
        let deals_before = Vec::new(alloc);
        let holds_before = Vec::new(alloc);
        let moves_before = Vec::new(alloc);
        let entries = Vec::new(alloc);
        let deals = Vec::new(alloc);
        Ok(Book {
            alloc,
            rows,
            deals_before,
            holds_before,
            moves_before,
            entries,
            deals,
        })
    }

    /// The book of just these rows, which are a part of a ledger's book.
    pub fn part(alloc: Global, rows: &[BookRow]) -> Result<Book, PartFault>
        ensures ok { IfOk result (λ book. (first_fault no_rows 0 rows.now ≡ None)
            × (book ≡ part_of rows.now)) }
        ensures grown { IfOk result (λ book. IsGrown book) }
        ensures refused { IfErr result (λ fault.
            IsPartRefusal fault (first_fault no_rows 0 rows.now)) }
    {
        let part = take_rows(alloc, rows)?;
        let entries = Vec::new(alloc);
        Ok(Book {
            alloc,
            rows: part.free,
            deals_before: part.deals,
            holds_before: part.holds,
            moves_before: part.moves,
            entries,
            deals: part.at_hand,
        })
    }

    /// The opening rows.
    pub fn opening_rows(&self) -> &[(Id, Name, u64)]
        ensures { result.now ≡ self.now.opening }
    {
        self.rows.as_slice()
    }

    /// The parties of a registered deal.
    pub fn parties(&self, deal: &Id) -> Option<&[Id]>
        ensures { option_copied result ≡ parties_of self.now deal.now }
    {
        let known = find_deal(&self.deals, deal)?;
        Some(known.parties.as_slice())
    }

    /// Whether the deal is registered.
    pub fn is_registered(&self, deal: &Id) -> bool
        ensures { result ≡ is_known self.now deal.now }
    {
        self.parties(deal).is_some()
    }

    /// The outcome of a settled deal.
    pub fn settlement(&self, deal: &Id) -> Option<Outcome>
        ensures { result ≡ settlement_of self.now deal.now }
    {
        find_deal(&self.deals, deal)?.outcome
    }

    /// How many transfers the party has made in the deal.
    pub fn moves(&self, deal: &Id, party: &Id) -> u32
        ensures { result ≡ moves_of self.now deal.now party.now }
    {
        let mut count = self.carried_moves(deal, party);
        for entry in &self.entries {
            if entry.change.is_move(deal, party) {
                count += 1;
            }
        }
        count
    }

    /// What the party owns in the deal, if the deal aborts: its escrows.
    pub fn if_abort(&self, deal: &Id, party: &Id, asset: &Name) -> u64
        ensures { result ≡ if_abort_of self.now deal.now party.now asset.now }
    {
        let mut sum = self.carried_abort(deal, party, asset);
        for entry in &self.entries {
            sum += entry.change.escrowed(deal, party, asset);
        }
        sum
    }

    /// What the party owns in the deal, if the deal commits: its escrows and what it received, less
    /// what it gave.
    pub fn if_commit(&self, deal: &Id, party: &Id, asset: &Name) -> u64
        ensures { result ≡ if_commit_of self.now deal.now party.now asset.now }
    {
        let mut came: u128 = u128::from(self.carried_commit(deal, party, asset));
        let mut went: u128 = 0;
        for entry in &self.entries {
            came += u128::from(entry.change.came(deal, party, asset));
            went += u128::from(entry.change.given(deal, party, asset));
        }
        (came - went) as u64
    }

    /// What the account can spend: its opening amount, payments and payouts, less payments and
    /// escrows.
    pub fn free(&self, account: &Id, asset: &Name) -> u64
        ensures { result ≡ free_of self.now account.now asset.now }
    {
        let mut came = u128::from(self.opening(account, asset));
        let mut went: u128 = 0;
        for entry in &self.entries {
            came += u128::from(entry.gained(account, asset));
            came += u128::from(self.carried_payout(&entry.change, account, asset));
            went += u128::from(entry.lost(account, asset));
        }
        (came - went) as u64
    }

    /// Registers a deal with its parties. A deal that is registered stays as it is.
    pub fn register(&mut self, deal: &Id, parties: &[Id]) -> Result<(), BookFault>
        requires { IsTrue (are_parties parties.now) }
        ensures ok { OnOk result (self.new ≡ registered self.old deal.now parties.now) }
        ensures known { is_known self.old deal.now ≡ true → IsOk result }
        ensures refused { IsOkUnless result BookFault.NoMemory }
        ensures unchanged { OnErr result (self.new ≡ self.old) }
    {
        if self.is_registered(deal) {
            return Ok(());
        }
        let known = KnownDeal {
            deal: *deal,
            parties: list_of(self.alloc, parties)?,
            outcome: None,
        };
        let entry = Entry {
            change: Change::Registered {
                deal: *deal,
                parties: list_of(self.alloc, parties)?,
            },
            ended: None,
        };
        self.entries.reserve(1)?;
        self.deals.push(known)?;
        self.entries.push(entry).unwrap();
        Ok(())
    }

    /// Puts an amount that the party can spend under the deal.
    pub fn escrow(
        &mut self,
        deal: &Id,
        party: &Id,
        asset: &Name,
        amount: u64,
    ) -> Result<(), BookFault>
        ensures ok { OnOk result (
            (escrow_refusal self.old deal.now party.now asset.now amount ≡ None)
            × (self.new ≡ with_change self.old
            (Change.Escrowed deal.now party.now asset.now amount))) }
        ensures refused { IfErr result (λ fault. IsRefusal fault
            (escrow_refusal self.old deal.now party.now asset.now amount)) }
        ensures unchanged { OnErr result (self.new ≡ self.old) }
    {
        self.check_escrow(deal, party, asset, amount)?;
        self.append(Change::Escrowed {
            deal: *deal,
            party: *party,
            asset: *asset,
            amount,
        })
    }

    /// Hands an amount that the sender owns if the deal commits to another party of the deal.
    /// The turn is the number of the transfers that the sender has made in the deal.
    pub fn transfer(
        &mut self,
        deal: &Id,
        from: &Id,
        turn: u32,
        to: &Id,
        asset: &Name,
        amount: u64,
    ) -> Result<(), BookFault>
        requires { moves_of self.old deal.now from.now < greatest_turn }
        ensures ok { OnOk result (
            (transfer_refusal self.old deal.now from.now turn to.now asset.now amount ≡ None)
            × (self.new ≡ with_change self.old
            (Change.Transferred deal.now from.now to.now asset.now amount))) }
        ensures refused { IfErr result (λ fault. IsRefusal fault
            (transfer_refusal self.old deal.now from.now turn to.now asset.now amount)) }
        ensures unchanged { OnErr result (self.new ≡ self.old) }
    {
        self.check_transfer(deal, from, turn, to, asset, amount)?;
        self.append(Change::Transferred {
            deal: *deal,
            from: *from,
            to: *to,
            asset: *asset,
            amount,
        })
    }

    /// Pays an amount that the sender can spend to another account.
    pub fn pay(&mut self, from: &Id, to: &Id, asset: &Name, amount: u64) -> Result<(), BookFault>
        ensures ok { OnOk result (
            (pay_refusal self.old from.now to.now asset.now amount ≡ None)
            × (self.new ≡ with_change self.old (Change.Paid from.now to.now asset.now amount))) }
        ensures refused { IfErr result (λ fault. IsRefusal fault
            (pay_refusal self.old from.now to.now asset.now amount)) }
        ensures unchanged { OnErr result (self.new ≡ self.old) }
    {
        self.check_payment(from, to, asset, amount)?;
        self.append(Change::Paid {
            from: *from,
            to: *to,
            asset: *asset,
            amount,
        })
    }

    /// Ends the deal. Each party is paid what it owns with that outcome.
    pub fn settle(&mut self, deal: &Id, outcome: Outcome) -> Result<(), BookFault>
        ensures ok { OnOk result (
            (settle_refusal self.old deal.now ≡ None)
            × (self.new ≡ with_change self.old (Change.Settled deal.now outcome))) }
        ensures refused { IfErr result (λ fault.
            IsRefusal fault (settle_refusal self.old deal.now)) }
        ensures unchanged { OnErr result (self.new ≡ self.old) }
    {
        self.check_known(deal)?;
        self.check_open(deal)?;
        self.entries.push(Entry {
            change: Change::Settled {
                deal: *deal,
                outcome,
            },
            ended: None,
        })?;
        note_end(self.entries.as_mut_slice(), deal, outcome);
        note_outcome(self.deals.as_mut_slice(), deal, outcome);
        Ok(())
    }
}

impl Book {
    /// What the party is carried with in the deal, if the deal commits.
    fn carried_commit(&self, deal: &Id, party: &Id, asset: &Name) -> u64
        ensures { result ≡ carried_commit self.now.carried deal.now party.now asset.now }
    {
        find_hold(&self.holds_before, deal, party, asset).map_or(0, |row| row.commit)
    }

    /// What the party is carried with in the deal, if the deal aborts.
    fn carried_abort(&self, deal: &Id, party: &Id, asset: &Name) -> u64
        ensures { result ≡ carried_abort self.now.carried deal.now party.now asset.now }
    {
        find_hold(&self.holds_before, deal, party, asset).map_or(0, |row| row.abort)
    }

    /// How many moves the party is carried with in the deal.
    fn carried_moves(&self, deal: &Id, party: &Id) -> u32
        ensures { result ≡ carried_moves self.now.carried deal.now party.now }
    {
        find_moves(&self.moves_before, deal, party).map_or(0, |row| row.moves)
    }

    /// What the settlement pays the account of what is carried.
    fn carried_payout(&self, change: &Change, account: &Id, asset: &Name) -> u64
        ensures { result ≡ carried_out self.now.carried account.now asset.now change.now }
    {
        match change {
            Change::Settled {
                deal,
                outcome: Outcome::Commit,
            } => self.carried_commit(deal, account, asset),
            Change::Settled {
                deal,
                outcome: Outcome::Abort,
            } => self.carried_abort(deal, account, asset),
            _ => 0,
        }
    }

    /// The opening amount of the account.
    fn opening(&self, account: &Id, asset: &Name) -> u64
        ensures { result ≡ opening_of self.now.opening account.now asset.now }
    {
        let mut sum = 0;
        for row in &self.rows {
            sum += row_amount(row, account, asset);
        }
        sum
    }

    fn check_known(&self, deal: &Id) -> Result<(), BookFault>
        ensures { result_err result ≡ unknown_deal self.now deal.now }
    {
        match self.parties(deal) {
            Some(_) => Ok(()),
            None => Err(BookFault::UnknownDeal),
        }
    }

    fn is_party(&self, deal: &Id, account: &Id) -> bool
        ensures { result ≡ is_party self.now deal.now account.now }
    {
        match self.parties(deal) {
            Some(parties) => parties.contains(account),
            None => false,
        }
    }

    fn check_party(&self, deal: &Id, account: &Id) -> Result<(), BookFault>
        ensures { result_err result ≡ not_a_party self.now deal.now account.now }
    {
        if self.is_party(deal, account) {
            Ok(())
        } else {
            Err(BookFault::NotAParty { account: *account })
        }
    }

    fn check_open(&self, deal: &Id) -> Result<(), BookFault>
        ensures { result_err result ≡ deal_settled self.now deal.now }
    {
        match self.settlement(deal) {
            None => Ok(()),
            Some(outcome) => Err(BookFault::DealSettled { outcome }),
        }
    }

    fn check_turn(&self, deal: &Id, party: &Id, turn: u32) -> Result<(), BookFault>
        ensures { result_err result ≡ wrong_turn self.now deal.now party.now turn }
    {
        let expected = self.moves(deal, party);
        if turn == expected {
            Ok(())
        } else {
            Err(BookFault::WrongTurn { expected })
        }
    }

    fn check_escrow(
        &self,
        deal: &Id,
        party: &Id,
        asset: &Name,
        amount: u64,
    ) -> Result<(), BookFault>
        ensures { result_err result
            ≡ escrow_refusal self.now deal.now party.now asset.now amount }
    {
        self.check_known(deal)?;
        self.check_party(deal, party)?;
        self.check_open(deal)?;
        check_above_zero(amount)?;
        check_held(self.free(party, asset), amount)
    }

    fn check_transfer(
        &self,
        deal: &Id,
        from: &Id,
        turn: u32,
        to: &Id,
        asset: &Name,
        amount: u64,
    ) -> Result<(), BookFault>
        ensures { result_err result
            ≡ transfer_refusal self.now deal.now from.now turn to.now asset.now amount }
    {
        self.check_known(deal)?;
        self.check_party(deal, from)?;
        self.check_party(deal, to)?;
        self.check_open(deal)?;
        self.check_turn(deal, from, turn)?;
        check_between(from, to, amount)?;
        check_held(self.if_commit(deal, from, asset), amount)
    }

    fn check_payment(&self, from: &Id, to: &Id, asset: &Name, amount: u64) -> Result<(), BookFault>
        ensures { result_err result ≡ pay_refusal self.now from.now to.now asset.now amount }
    {
        check_between(from, to, amount)?;
        check_held(self.free(from, asset), amount)
    }

    /// Adds a change that the history accepts.
    fn append(&mut self, change: Change) -> Result<(), BookFault>
        requires accepted { IsAccepted self.old change }
        requires deals { LeavesDeals change }
        ensures ok { OnOk result (self.new ≡ with_change self.old change) }
        ensures refused { IsOkUnless result BookFault.NoMemory }
        ensures unchanged { OnErr result (self.new ≡ self.old) }
    {
        self.entries.push(Entry {
            change,
            ended: None,
        })?;
        Ok(())
    }
}

fn list_of(alloc: Global, accounts: &[Id]) -> Result<List<Id>, BookFault>
    ensures ok { IfOk result (λ list. list ≡ accounts.now) }
    ensures refused { IsOkUnless result BookFault.NoMemory }
{
    Ok(List::from_vec(Vec::from_slice(alloc, accounts)?))
}

fn check_above_zero(amount: u64) -> Result<(), BookFault>
    ensures { result_err result ≡ zero amount }
{
    if amount == 0 {
        Err(BookFault::ZeroOrSelf)
    } else {
        Ok(())
    }
}

fn check_between(from: &Id, to: &Id, amount: u64) -> Result<(), BookFault>
    ensures { result_err result ≡ zero_or_self amount from.now to.now }
{
    if amount == 0 || from == to {
        Err(BookFault::ZeroOrSelf)
    } else {
        Ok(())
    }
}

fn check_held(held: u64, amount: u64) -> Result<(), BookFault>
    ensures { result_err result ≡ short held amount }
{
    if held < amount {
        Err(BookFault::Short { held })
    } else {
        Ok(())
    }
}
