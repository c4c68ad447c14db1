//! Making the texts that a party signs in a deal.

ghost use Rattle.std.specs.Prelude.{◌≡◌, ◌≤◌, map, length, IfOk, IsTrue};
ghost use Rattle.act_text.specs.ActTexts.{act_text};
ghost use Rattle.act_text.specs.declared.act.Act.TheVariants.{Register, Escrow, Transfer, StartDeal, Vote};
ghost use Rattle.dh_base.specs.Names.{is_name};
ghost use Rattle.deal_core.specs.DealText.{deal_text};
ghost use Rattle.deal_core.specs.Kept.{IsDeal};
ghost use Rattle.joined_deals.specs.DealTexts.{account_of, planned_text};
ghost use Rattle.joined_deals.specs.TextSizes.{most_deal_text, most_text, AreShort, AreNamed, AreOnNames, HasNames};

use act_text::{Act, write_act};
use clear_core::PlanAct;
use deal_core::{Deal, Party, Step, write_deal};
use dh_base::{Id, List, Name, NoMemory, Outcome};
use std::alloc::Global;

/// An id has 32 bytes.
fn wide(id: &Id)
    ensures { length id.now.0 ≡ 32 }
{
    let _bytes = id.0;
}

/// A name is a name.
fn named(name: &Name)
    ensures { IsTrue (is_name name.now) }
{
    let _text = name.as_bytes();
}

/// Names of parties are names, and accounts have 32 bytes.
fn all_named(parties: &[Party])
    ensures { AreNamed parties.now }
{
    match parties.split_first() {
        None => {}
        Some((first, rest)) => {
            wide(&first.account);
            named(&first.name);
            all_named(rest)
        }
    }
}

/// Names of ledgers and assets are names.
fn all_on_names(steps: &[Step])
    ensures { AreOnNames steps.now }
{
    match steps.split_first() {
        None => {}
        Some((first, rest)) => {
            named(&first.ledger);
            named(&first.asset);
            all_on_names(rest)
        }
    }
}

/// Names of a deal are names, and its ids have 32 bytes.
fn deal_named(deal: &Deal)
    ensures { HasNames deal.now }
{
    named(&deal.name);
    wide(&deal.house);
    all_named(deal.parties());
    all_on_names(deal.steps());
}

/// The text of a deal, which is short.
pub(crate) fn text_of_deal(alloc: Global, deal: &Deal) -> Result<List<u8>, NoMemory>
    ensures text { IfOk result (λ text. text ≡ deal_text deal.now) }
    ensures short { IfOk result (λ text. length text ≤ most_deal_text) }
{
    deal_named(deal);
    kept(deal);
    let text = write_deal(alloc, deal)?;
    Ok(text)
}

/// The account of the party of an index.
fn account_of(parties: &[Party], index: u16) -> Id
    ensures { result ≡ account_of parties.now index }
{
    match parties.get(usize::from(index)) {
        Some(party) => party.account,
        None => Id([0; 32]),
    }
}

/// What every deal keeps.
pub(crate) fn kept(deal: &Deal)
    ensures { IsDeal deal.now }
{
    let _steps = deal.steps();
}

/// The text that registers a deal on a ledger.
fn register_text(alloc: Global, text: List<u8>) -> Result<List<u8>, NoMemory>
    requires { length text ≤ most_deal_text }
    ensures text { IfOk result (λ made. made ≡ act_text (Register text)) }
    ensures short { IfOk result (λ made. length made ≤ most_text) }
{
    let made = write_act(alloc, &Act::Register { text })?;
    Ok(made)
}

/// The text that escrows an amount in a deal.
fn escrow_text(
    alloc: Global,
    deal: Id,
    ledger: Name,
    asset: Name,
    amount: u64,
) -> Result<List<u8>, NoMemory>
    ensures text { IfOk result (λ made. made ≡ act_text (Escrow deal ledger asset amount)) }
    ensures short { IfOk result (λ made. length made ≤ most_text) }
{
    wide(&deal);
    named(&ledger);
    named(&asset);
    let act = Act::Escrow {
        deal,
        ledger,
        asset,
        amount,
    };
    let made = write_act(alloc, &act)?;
    Ok(made)
}

/// The text that moves an amount in a deal to another of its parties.
fn transfer_text(
    alloc: Global,
    deal: Id,
    ledger: Name,
    turn: u32,
    to: Id,
    asset: Name,
    amount: u64,
) -> Result<List<u8>, NoMemory>
    ensures text { IfOk result (λ made. made
        ≡ act_text (Transfer deal ledger turn to asset amount)) }
    ensures short { IfOk result (λ made. length made ≤ most_text) }
{
    wide(&deal);
    wide(&to);
    named(&ledger);
    named(&asset);
    let act = Act::Transfer {
        deal,
        ledger,
        turn,
        to,
        asset,
        amount,
    };
    let made = write_act(alloc, &act)?;
    Ok(made)
}

/// The text of an act of a plan, in a deal of that text.
fn planned_text(
    alloc: Global,
    deal: &Deal,
    text: &[u8],
    act: &PlanAct,
) -> Result<List<u8>, NoMemory>
    requires text { text.now ≡ deal_text deal.now }
    requires short { length text.now ≤ most_deal_text }
    ensures text { IfOk result (λ made. made ≡ planned_text deal.now act.now) }
    ensures short { IfOk result (λ made. length made ≤ most_text) }
{
    match act {
        PlanAct::Register => {
            let copy = List::from_vec(Vec::from_slice(alloc, text)?);
            register_text(alloc, copy)
        }
        PlanAct::Escrow {
            ledger,
            asset,
            amount,
        } => escrow_text(alloc, deal.id, *ledger, *asset, *amount),
        PlanAct::Transfer {
            ledger,
            turn,
            to,
            asset,
            amount,
        } => {
            let account = account_of(deal.parties(), *to);
            transfer_text(alloc, deal.id, *ledger, *turn, account, *asset, *amount)
        }
    }
}

/// The texts of the acts of a plan.
#[tactic(auto, using(crate::proofs::Short::short_push))]
pub(crate) fn plan_texts(
    alloc: Global,
    deal: &Deal,
    text: &[u8],
    plan: &[PlanAct],
) -> Result<Vec<List<u8>>, NoMemory>
    requires text { text.now ≡ deal_text deal.now }
    requires short { length text.now ≤ most_deal_text }
    ensures texts { IfOk result (λ texts. texts.items ≡ map (planned_text deal.now) plan.now) }
    ensures short { IfOk result (λ texts. AreShort texts.items) }
{
    let mut texts = Vec::new(alloc);
    for act in plan {
        let made = planned_text(alloc, deal, text, act)?;
        texts.push(made)?;
    }
    Ok(texts)
}

/// The text that starts a deal in the log.
pub(crate) fn start_text(alloc: Global, text: List<u8>) -> Result<List<u8>, NoMemory>
    requires { length text ≤ most_deal_text }
    ensures text { IfOk result (λ made. made ≡ act_text (StartDeal text)) }
    ensures short { IfOk result (λ made. length made ≤ most_text) }
{
    let made = write_act(alloc, &Act::StartDeal { text })?;
    Ok(made)
}

/// The text of the vote of a party.
pub(crate) fn vote_text(
    alloc: Global,
    deal: Id,
    index: u16,
    choice: Outcome,
) -> Result<List<u8>, NoMemory>
    ensures text { IfOk result (λ made. made ≡ act_text (Vote deal index choice)) }
    ensures short { IfOk result (λ made. length made ≤ most_text) }
{
    wide(&deal);
    let act = Act::Vote {
        deal,
        index,
        choice,
    };
    let made = write_act(alloc, &act)?;
    Ok(made)
}
