//! What is taken up of the rows of a part.

ghost use Rattle.std.specs.Prelude.{◌≡◌, IfOk, IsOkUnless};
ghost use Rattle.escrow_book.specs.Kept.{base_kept};
ghost use Rattle.escrow_book.specs.Reached.{are_different};
ghost use Rattle.escrow_book.specs.Summed.{AreSums};

use crate::known_deal::{KnownDeal, find_deal};
use crate::opening::has_row;
use crate::part_fault::PartFault;
use crate::part_sums::PartSums;
use crate::row::{BookRow, HoldRow, MovesRow, find_hold, find_moves};
use dh_base::{GREATEST_AMOUNT, Id, List, Name, Outcome};
use std::alloc::Global;

/// The rows so far, each kind by itself, with their sums, and the deals at hand once more.
#[derive(Drop)]
pub(crate) struct PartRows {
    pub(crate) alloc: Global,
    pub(crate) free: Vec<(Id, Name, u64)>,
    pub(crate) deals: Vec<KnownDeal>,
    pub(crate) holds: Vec<HoldRow>,
    pub(crate) moves: Vec<MovesRow>,
    pub(crate) at_hand: Vec<KnownDeal>,
    pub(crate) sums: PartSums,
    ghost summed: { AreSums sums (base_kept free.items deals.items holds.items moves.items) },
}

impl PartRows {
    ghost use Rattle.std.specs.Prelude.{◌<◌, ◌^◌, false, not, is_some, None, OnOk, IfErr};
    ghost use Rattle.std.specs.Option.{option_map_or};
    ghost use Rattle.escrow_book.specs.declared.row.BookRow.TheVariants.{Free, Deal, Hold, Moves};
    ghost use Rattle.escrow_book.specs.Base.{find_deal, carried_parties, total_with_free, total_with_hold};
    ghost use Rattle.escrow_book.specs.History.{is_among};
    ghost use Rattle.escrow_book.specs.Noted.{saturated};
    ghost use Rattle.escrow_book.specs.PartRows.{with_row, row_fault, IsPartRefusal, FitsRow};
    ghost use Rattle.escrow_book.specs.Taken.{base_taken};

    /// Takes up a row.
    pub(crate) fn add(&mut self, row: &BookRow, number: u32) -> Result<(), PartFault>
        ensures ok { OnOk result ((row_fault (base_taken self.old) number row.now ≡ None)
            × (base_taken self.new ≡ with_row (base_taken self.old) row.now)
            × FitsRow row.now) }
        ensures at_hand { OnOk result (self.old.at_hand.items ≡ self.old.deals.items
            → self.new.at_hand.items ≡ self.new.deals.items) }
        ensures refused { IfErr result (λ fault. IsPartRefusal fault
            (row_fault (base_taken self.old) number row.now)) }
    {
        match row {
            BookRow::Free {
                account,
                asset,
                amount,
            } => self.add_free(account, asset, *amount, number),
            BookRow::Deal {
                deal,
                parties,
                settled,
            } => self.add_deal(deal, parties, *settled, number),
            BookRow::Hold {
                deal,
                account,
                asset,
                commit,
                abort,
            } => {
                let hold = HoldRow {
                    deal: *deal,
                    account: *account,
                    asset: *asset,
                    commit: *commit,
                    abort: *abort,
                };
                self.add_hold(hold, number)
            }
            BookRow::Moves {
                deal,
                account,
                moves,
            } => {
                let row = MovesRow {
                    deal: *deal,
                    account: *account,
                    moves: *moves,
                };
                self.add_moves(row, number)
            }
        }
    }

    /// What there is of the row's asset with the row.
    fn total_with_free(&self, row: &(Id, Name, u64)) -> u64
        ensures { result ≡ saturated (total_with_free (base_taken self.now) row.now) }
    {
        let (_, asset, amount) = row;
        self.sums.total(asset).saturating_add(*amount)
    }

    /// What there is of the hold's asset with the hold.
    fn total_with_hold(&self, hold: &HoldRow) -> u64
        ensures { result ≡ saturated (total_with_hold (base_taken self.now) hold.now) }
    {
        let total = self.sums.total(&hold.asset);
        if self.is_open(&hold.deal) {
            total.saturating_add(self.sums.rise(hold))
        } else {
            total
        }
    }

    /// Whether the deal is one so far and isn't settled.
    fn is_open(&self, deal: &Id) -> bool
        ensures { result ≡ option_map_or (λ known. not (is_some known.outcome))
            (find_deal (base_taken self.now).1.deals deal.now) false }
    {
        match find_deal(&self.deals, deal) {
            Some(known) => known.outcome.is_none(),
            None => false,
        }
    }

    /// Whether the account is a party of a deal so far.
    fn is_party(&self, deal: &Id, account: &Id) -> bool
        ensures { result ≡ is_among account.now (carried_parties (base_taken self.now).1 deal.now) }
    {
        match find_deal(&self.deals, deal) {
            Some(known) => known.parties.as_slice().contains(account),
            None => false,
        }
    }

    fn add_free(
        &mut self,
        account: &Id,
        asset: &Name,
        amount: u64,
        number: u32,
    ) -> Result<(), PartFault>
        ensures ok { OnOk result (
            (row_fault (base_taken self.old) number (Free account.now asset.now amount) ≡ None)
            × (base_taken self.new
            ≡ with_row (base_taken self.old) (Free account.now asset.now amount))) }
        ensures at_hand { OnOk result (self.old.at_hand.items ≡ self.old.deals.items
            → self.new.at_hand.items ≡ self.new.deals.items) }
        ensures refused { IfErr result (λ fault. IsPartRefusal fault
            (row_fault (base_taken self.old) number (Free account.now asset.now amount))) }
    {
        if has_row(&self.free, account, asset) {
            return Err(PartFault::BadRows { row: number });
        }
        let row = (*account, *asset, amount);
        let total = self.total_with_free(&row);
        if total > GREATEST_AMOUNT {
            return Err(PartFault::SumTooLarge { row: number });
        }
        self.sums.make_room(asset)?;
        self.free.push(row)?;
        self.sums.set_total(asset, total);
        Ok(())
    }

    fn add_deal(
        &mut self,
        deal: &Id,
        parties: &List<Id>,
        settled: Option<Outcome>,
        number: u32,
    ) -> Result<(), PartFault>
        ensures ok { OnOk result (
            (row_fault (base_taken self.old) number (Deal deal.now parties.now settled) ≡ None)
            × (base_taken self.new
            ≡ with_row (base_taken self.old) (Deal deal.now parties.now settled))) }
        ensures at_hand { OnOk result (self.old.at_hand.items ≡ self.old.deals.items
            → self.new.at_hand.items ≡ self.new.deals.items) }
        ensures refused { IfErr result (λ fault. IsPartRefusal fault
            (row_fault (base_taken self.old) number (Deal deal.now parties.now settled))) }
    {
        let known = find_deal(&self.deals, deal).is_some();
        if known || !(parties.len() >= 2 && are_different(parties.as_slice())) {
            return Err(PartFault::BadRows { row: number });
        }
        let carried = KnownDeal {
            deal: *deal,
            parties: copied(self.alloc, parties)?,
            outcome: settled,
        };
        let at_hand = KnownDeal {
            deal: *deal,
            parties: copied(self.alloc, parties)?,
            outcome: settled,
        };
        self.deals.push(carried)?;
        self.at_hand.push(at_hand)?;
        Ok(())
    }

    fn add_hold(&mut self, hold: HoldRow, number: u32) -> Result<(), PartFault>
        ensures ok { OnOk result (
            (row_fault (base_taken self.old) number
            (Hold hold.deal hold.account hold.asset hold.commit hold.abort) ≡ None)
            × (base_taken self.new ≡ with_row (base_taken self.old)
            (Hold hold.deal hold.account hold.asset hold.commit hold.abort))
            × (hold.commit < 2 ^ 64) × (hold.abort < 2 ^ 64)) }
        ensures at_hand { OnOk result (self.old.at_hand.items ≡ self.old.deals.items
            → self.new.at_hand.items ≡ self.new.deals.items) }
        ensures refused { IfErr result (λ fault. IsPartRefusal fault
            (row_fault (base_taken self.old) number
            (Hold hold.deal hold.account hold.asset hold.commit hold.abort))) }
    {
        let known = find_hold(&self.holds, &hold.deal, &hold.account, &hold.asset).is_some();
        if known || !self.is_party(&hold.deal, &hold.account) {
            return Err(PartFault::BadRows { row: number });
        }
        let total = self.total_with_hold(&hold);
        if total > GREATEST_AMOUNT {
            return Err(PartFault::SumTooLarge { row: number });
        }
        self.sums.make_hold_room(&hold)?;
        self.holds.push(hold)?;
        self.sums.note_hold(&hold, total);
        Ok(())
    }

    fn add_moves(&mut self, row: MovesRow, number: u32) -> Result<(), PartFault>
        ensures ok { OnOk result (
            (row_fault (base_taken self.old) number (Moves row.deal row.account row.moves) ≡ None)
            × (base_taken self.new
            ≡ with_row (base_taken self.old) (Moves row.deal row.account row.moves))
            × (row.moves < 2 ^ 32)) }
        ensures at_hand { OnOk result (self.old.at_hand.items ≡ self.old.deals.items
            → self.new.at_hand.items ≡ self.new.deals.items) }
        ensures refused { IfErr result (λ fault. IsPartRefusal fault
            (row_fault (base_taken self.old) number (Moves row.deal row.account row.moves))) }
    {
        let known = find_moves(&self.moves, &row.deal, &row.account).is_some();
        if known || !self.is_party(&row.deal, &row.account) || row.moves == u32::MAX {
            return Err(PartFault::BadRows { row: number });
        }
        self.moves.push(row)?;
        Ok(())
    }
}

/// Whether no account stands twice in the list.
fn are_different(accounts: &[Id]) -> bool
    ensures { result ≡ are_different accounts.now }
{
    match accounts.split_first() {
        None => true,
        Some((first, rest)) => !rest.contains(first) && are_different(rest),
    }
}

fn copied(alloc: Global, accounts: &List<Id>) -> Result<List<Id>, PartFault>
    ensures ok { IfOk result (λ list. list ≡ accounts.now) }
    ensures refused { IsOkUnless result PartFault.NoMemory }
{
    Ok(List::from_vec(Vec::from_slice(alloc, accounts.as_slice())?))
}
