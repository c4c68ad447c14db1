//! A house of one seat, a deal of two parties, and the ledger on which it stands.

ghost use Rattle.std.specs.Prelude.{◌≡◌, ◌≤◌, ◌<◌, length, IfOk};
ghost use Rattle.act_text.specs.ActTexts.{TextFits};
ghost use Rattle.claim_core.specs.Limits.{IsSmall};

use act_text::{Act, write_act};
use cert_core::{SeatSig, Set, prefix_text, set_id};
use claim_core::Claim;
use dh_base::{Id, List, Name, digest};
use failing_keeper::FailingKeeper;
use key_ring::{Envelope, KeySpec, account_of, make_envelope, make_ring};
use ledger_core::{Ledger, OpenRow, Opening};
use std::alloc::Global;
use std::test::Fail;
use vote_log::{LogRecord, head_of};

/// The other party of the deal, which signs nothing.
pub(crate) const BEN: Id = Id([0x44; 32]);

/// The key of the house's only seat.
fn seat_keys() -> KeySpec
    ensures { result.size ≡ 1 }
{
    KeySpec {
        seed: [0x55; 32],
        ident: [0x66; 16],
        size: 1,
    }
}

/// Ann's keys.
fn ann_keys() -> KeySpec
    ensures { result.size ≡ 4 }
{
    KeySpec {
        seed: [0x77; 32],
        ident: [0x88; 16],
        size: 4,
    }
}

/// Ann's account.
pub(crate) fn ann_of(alloc: Global) -> Result<Id, Fail> {
    Ok(account_of(make_ring(alloc, &ann_keys())?.as_slice()))
}

fn genesis(alloc: Global) -> Result<Set, Fail>
    ensures { IfOk result (λ set. set.epoch ≡ 0) }
{
    let seat = account_of(make_ring(alloc, &seat_keys())?.as_slice());
    Ok(Set {
        epoch: 0,
        f: 0,
        seats: [seat; 16],
    })
}

/// Ann begins with 10 coins.
pub(crate) fn opening(alloc: Global) -> Result<Opening, Fail>
    ensures { IfOk result (λ opening. opening.genesis.epoch ≡ 0) }
{
    let mut rows = Vec::new(alloc);
    rows.push(OpenRow {
        asset: Name::from_bytes(b"coin")?,
        account: ann_of(alloc)?,
        amount: 10,
    })?;
    Ok(Opening {
        name: Name::from_bytes(b"coins")?,
        genesis: genesis(alloc)?,
        rows: List::from_vec(rows),
    })
}

pub(crate) fn opened_by(
    alloc: Global,
    keeper: FailingKeeper,
    opening: &Opening,
) -> Result<Ledger<FailingKeeper>, Fail>
    ensures { IfOk result (λ ledger. ledger.genesis ≡ opening.now.genesis) }
{
    match Ledger::open(alloc, keeper, opening) {
        Ok(ledger) => Ok(ledger),
        Err(refused) => Err(Fail::from(refused.fault)),
    }
}

pub(crate) fn opened(alloc: Global, keeper: FailingKeeper) -> Result<Ledger<FailingKeeper>, Fail>
    ensures { IfOk result (λ ledger. ledger.genesis.epoch ≡ 0) }
{
    opened_by(alloc, keeper, &opening(alloc)?)
}

/// Ann gives Ben 3 coins, and gets 1.
fn deal_text(alloc: Global) -> Result<String, Fail> {
    let house = set_id(&genesis(alloc)?);
    let ann = ann_of(alloc)?;
    let ben = BEN;
    let text = format!(in alloc;
        "deal pair\nhouse {house}\nparty ann {ann}\nparty ben {ben}\nstep ann ben coins coin 3\nstep ben ann coins coin 1\n"
    )?;
    Ok(text)
}

pub(crate) fn deal_of(alloc: Global) -> Result<Id, Fail> {
    Ok(digest(deal_text(alloc)?.as_bytes()))
}

fn registration(alloc: Global) -> Result<Act, Fail>
    ensures { IfOk result TextFits }
{
    let text = deal_text(alloc)?;
    if text.as_bytes().len() > 1000 {
        return Err(Fail::from("long"));
    }
    Ok(Act::Register {
        text: List::from_vec(Vec::from_slice(alloc, text.as_bytes())?),
    })
}

/// Ann puts 4 coins under the deal.
pub(crate) fn escrow(deal: Id) -> Result<Act, Fail>
    ensures { IfOk result TextFits }
{
    Ok(Act::Escrow {
        deal,
        ledger: Name::from_bytes(b"coins")?,
        asset: Name::from_bytes(b"coin")?,
        amount: 4,
    })
}

/// Ann hands 3 of them to Ben.
fn transfer(deal: Id) -> Result<Act, Fail>
    ensures { IfOk result TextFits }
{
    Ok(Act::Transfer {
        deal,
        ledger: Name::from_bytes(b"coins")?,
        turn: 0,
        to: BEN,
        asset: Name::from_bytes(b"coin")?,
        amount: 3,
    })
}

/// The act, as Ann says it under that key of hers.
pub(crate) fn said(alloc: Global, q: u32, act: &Act) -> Result<Envelope, Fail>
    requires key { q < 4 }
    requires text { TextFits act.now }
    ensures { IfOk result (λ env. length env.message ≤ 16384) }
{
    let text = write_act(alloc, act)?.into_vec();
    if text.len() > 16_384 {
        return Err(Fail::from("long"));
    }
    let env = make_envelope(alloc, &ann_keys(), q, text.as_slice())?;
    if env.message.as_slice().len() > 16_384 {
        return Err(Fail::from("long"));
    }
    Ok(env)
}

/// The act is done, as Ann says it under that key of hers.
fn done(alloc: Global, ledger: &mut Ledger<FailingKeeper>, q: u32, act: &Act) -> Result<(), Fail>
    requires key { q < 4 }
    requires text { TextFits act.now }
{
    match ledger.submit(&said(alloc, q, act)?) {
        Ok(_) => Ok(()),
        Err(_) => Err(Fail::from("refused")),
    }
}

/// A keeper over which the deal is registered, and the coins stand under it.
pub(crate) fn with_deal(alloc: Global) -> Result<FailingKeeper, Fail> {
    let mut ledger = opened(alloc, FailingKeeper::new(alloc))?;
    let deal = deal_of(alloc)?;
    done(alloc, &mut ledger, 0, &registration(alloc)?)?;
    done(alloc, &mut ledger, 1, &escrow(deal)?)?;
    done(alloc, &mut ledger, 2, &transfer(deal)?)?;
    Ok(ledger.close())
}

/// The claim of the records, whose head the seat has signed.
pub(crate) fn claim_of(alloc: Global, recs: &[LogRecord]) -> Result<Claim, Fail>
    requires { length recs.now ≤ 4 }
    ensures { IfOk result IsSmall }
{
    let house = set_id(&genesis(alloc)?);
    let head = head_of(&house, recs);
    let text = prefix_text(&house, recs.len() as u32, &head);
    let mut sigs = Vec::new(alloc);
    sigs.push(SeatSig {
        seat: 0,
        env: make_envelope(alloc, &seat_keys(), 0, &text)?,
    })?;
    Ok(Claim {
        links: List::from_vec(Vec::new(alloc)),
        recs: List::from_vec(Vec::from_slice(alloc, recs)?),
        head,
        sigs: List::from_vec(sigs),
    })
}
