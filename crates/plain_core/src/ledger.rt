//! A plain ledger.

ghost use Rattle.std.specs.Prelude.{◌≡◌, ◌≢◌, ◌<◌, ◌≤◌, ◌^◌, ◌-◌, ◌+◌, List, map, length, IsTrue, IfOk};
ghost use Rattle.escrow_book.specs.Base.{greatest_turn};
ghost use Rattle.escrow_book.specs.Reached.{are_parties};
ghost use Rattle.escrow_book.specs.declared.fault.BookFault.TheVariants.{NoMemory as WantOfMemory};
ghost use Rattle.plain_core.specs.declared.reply.Reply.TheVariants.{RefusedAct as IsRefusedAct};
ghost use Rattle.plain_script.specs.Ids.{plain_id};
ghost use Rattle.plain_core.specs.Starts.{started_ledger};
ghost use Rattle.plain_core.specs.Given.{Gives};
ghost use Rattle.plain_core.specs.Ledgers.{
  is_member,
  act_refusal,
  name_of,
  register_answer,
  escrow_answer,
  transfer_answer,
  claim_answer,
};

use crate::act_refusal::ActRefusal;
use crate::claim_refusal::ClaimRefusal;
use crate::openings::start_book;
use crate::reply::Reply;
use dh_base::{Id, Name, NoMemory};
use escrow_book::{Book, BookFault};
use plain_script::{Declarations, plain_id, plain_ids};
use std::alloc::Global;
use std::marker::Model;
use vote_log::{LogRecord, outcome};

/// A ledger that reads the one log: its name, its book, and how many acts and settlements it has
/// accepted.
#[derive(Drop)]
pub struct Ledger {
    name: Name,
    book: Book,
    entries: u64,
}

impl Model for Ledger {
    ghost use Rattle.std.specs.Prelude.{◌≡◌, ◌≤◌, length};
    ghost use Rattle.plain_core.specs.Ledgers.{LedgerTold};

    ghost Value = { LedgerTold };

    ghost view = { λ l. record { name = l.name; history = l.book; entries = l.entries } };

    ghost use Rattle.escrow_book.specs.Base.{nothing_carried};

    ghost invariant = { λ l. (length l.book.changes ≤ l.entries)
        × (l.book.carried ≡ nothing_carried) };
}

impl Ledger {
    /// The ledger of this name, as the script's declarations start it.
    pub fn start(
        alloc: Global,
        declarations: &Declarations,
        name: &Name,
    ) -> Result<Ledger, NoMemory>
        ensures { IfOk result (λ ledger. ledger ≡ started_ledger declarations.now name.now) }
    {
        let book = start_book(alloc, declarations, name)?;
        Ok(Ledger {
            name: *name,
            book,
            entries: 0,
        })
    }

    pub fn name(&self) -> &Name
        ensures { result.now ≡ self.now.name }
    {
        &self.name
    }

    pub fn book(&self) -> &Book
        ensures { result.now ≡ self.now.history }
    {
        &self.book
    }

    /// A party of the deal registers it.
    pub fn register(
        &mut self,
        alloc: Global,
        members: &[Name],
        deal: &Name,
        party: &Name,
    ) -> Result<Reply, NoMemory>
        requires few { self.old.entries < greatest_turn }
        requires formed { 0 < length members.now → IsTrue (are_parties (map plain_id members.now)) }
        ensures { Gives result self.new (register_answer members.now deal.now party.now self.old) }
    {
        if !is_member(members, party) {
            return Ok(Reply::RefusedAct(ActRefusal::NotAParty { account: *party }));
        }
        let ids = plain_ids(alloc, members)?;
        match self.book.register(&plain_id(deal), ids.as_slice()) {
            Ok(()) => {
                self.entries += 1;
                Ok(Reply::Done { at: self.entries })
            }
            Err(_) => Err(NoMemory),
        }
    }

    /// The party escrows an amount of the asset for the deal.
    pub fn escrow(
        &mut self,
        deal: &Name,
        party: &Name,
        asset: &Name,
        amount: u64,
    ) -> Result<Reply, NoMemory>
        requires { self.old.entries < greatest_turn }
        ensures { Gives result self.new
            (escrow_answer deal.now party.now asset.now amount self.old) }
    {
        match self
            .book
            .escrow(&plain_id(deal), &plain_id(party), asset, amount)
        {
            Ok(()) => {
                self.entries += 1;
                Ok(Reply::Done { at: self.entries })
            }
            Err(fault) => refused(fault, party, party),
        }
    }

    /// A party moves an amount of what it would have if the deal commits.
    pub fn transfer(
        &mut self,
        deal: &Name,
        from: &Name,
        turn: u32,
        to: &Name,
        asset: &Name,
        amount: u64,
    ) -> Result<Reply, NoMemory>
        requires { self.old.entries < greatest_turn }
        ensures { Gives result self.new
            (transfer_answer deal.now from.now turn to.now asset.now amount self.old) }
    {
        match self.book.transfer(
            &plain_id(deal),
            &plain_id(from),
            turn,
            &plain_id(to),
            asset,
            amount,
        ) {
            Ok(()) => {
                self.entries += 1;
                Ok(Reply::Done { at: self.entries })
            }
            Err(fault) => refused(fault, from, to),
        }
    }

    /// The first `len` records of the log are shown, to settle the deal.
    pub fn claim(&mut self, records: &[LogRecord], deal: &Name, len: u32) -> Result<Reply, NoMemory>
        requires few { self.old.entries < greatest_turn }
        requires within { len ≤ length records.now }
        ensures { Gives result self.new (claim_answer records.now deal.now len self.old) }
    {
        let id = plain_id(deal);
        if !self.book.is_registered(&id) {
            return Ok(Reply::RefusedClaim(ClaimRefusal::UnknownDeal));
        }
        if let Some(outcome) = self.book.settlement(&id) {
            return Ok(Reply::Already { outcome });
        }
        match outcome(&records[..len as usize], &id) {
            None => Ok(Reply::RefusedClaim(ClaimRefusal::Undecided { len })),
            Some(decision) => match self.book.settle(&id, decision.outcome) {
                Ok(()) => {
                    self.entries += 1;
                    Ok(Reply::Settled {
                        outcome: decision.outcome,
                    })
                }
                Err(_) => Err(NoMemory),
            },
        }
    }
}

/// Whether the party is one of the members.
pub fn is_member(members: &[Name], party: &Name) -> bool
    ensures { result ≡ is_member members.now party.now }
{
    members.iter().any(|member| party == member)
}

/// The name of the account, which is the first or the second.
fn name_of(first: &Name, second: &Name, account: &Id) -> Name
    ensures { result ≡ name_of first.now second.now account.now }
{
    if *account == plain_id(first) {
        *first
    } else {
        *second
    }
}

/// The reply to an act that the book refuses, where its accounts are those of the two names.
fn refused(fault: BookFault, first: &Name, second: &Name) -> Result<Reply, NoMemory>
    ensures { IfOk result (λ reply. (reply ≡ IsRefusedAct (act_refusal first.now second.now fault))
        × (fault ≢ WantOfMemory)) }
{
    let refusal = match fault {
        BookFault::UnknownDeal => ActRefusal::UnknownDeal,
        BookFault::NotAParty { account } => ActRefusal::NotAParty {
            account: name_of(first, second, &account),
        },
        BookFault::DealSettled { outcome } => ActRefusal::DealSettled { outcome },
        BookFault::WrongTurn { expected } => ActRefusal::WrongTurn { expected },
        BookFault::ZeroOrSelf => ActRefusal::ZeroOrSelf,
        BookFault::Short { held } => ActRefusal::Short { held },
        BookFault::NoMemory => return Err(NoMemory),
    };
    Ok(Reply::RefusedAct(refusal))
}
