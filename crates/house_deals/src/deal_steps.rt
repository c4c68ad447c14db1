//! The members and steps of a deal.

ghost use Rattle.std.specs.Prelude.{◌≡◌, ◌≤◌, ◌<◌, ◌^◌, length, position, IfOk, IfSome};
ghost use Rattle.std.specs.Str.{bytes_eq};
ghost use Rattle.deal_core.specs.Deals.{total_of};
ghost use Rattle.deal_core.specs.Drafts.{is_ninth};
ghost use Rattle.deal_core.specs.Kept.{is_on, ledger_count};
ghost use Rattle.deal_core.specs.Limits.{most_steps};
ghost use Rattle.dh_base.specs.Limits.{most_parties};
ghost use Rattle.house_deals.specs.DealSteps.{
  members_of,
  index_in,
  steps_among,
  is_good_step,
  is_whole_deal,
  is_whole_named,
  is_whole_line,
  are_whole,
};

use crate::connected::is_connected;
use crate::names::{are_different, is_among};
use deal_core::Step;
use dh_base::{GREATEST_AMOUNT, MOST_PARTIES, Name, NoMemory};
use house_grammar::Declaration;
use std::alloc::Global;

/// The most steps of a deal.
const MOST_STEPS: usize = 64;

/// The most ledgers that the steps of a deal name.
const MOST_LEDGERS: usize = 8;

/// The parties of the deal of this name among the declarations.
pub fn members<'a>(declarations: &'a [Declaration], deal: &Name) -> &'a [Name]
    ensures { result.now ≡ members_of declarations.now deal.now }
{
    for declaration in declarations {
        if let Declaration::Deal { name, parties } = declaration {
            if deal == name {
                return parties.as_slice();
            }
        }
    }
    &[]
}

/// The place of the member with the name.
fn place_in(members: &[Name], name: &Name) -> Option<usize>
    ensures value { result ≡ position (bytes_eq name.now) members.now }
    ensures bound { IfSome result (λ place. place < length members.now) }
{
    members.iter().position(|member| name == member)
}

/// The index of the member with the name, and 0 where none has it.
fn index_in(members: &[Name], name: &Name) -> u16
    requires { length members.now ≤ most_parties }
    ensures { result ≡ index_in members.now name.now }
{
    match place_in(members, name) {
        Some(place) => place as u16,
        None => 0,
    }
}

/// The steps of the deal among the declarations, by the indices of its members.
pub fn steps_among(
    alloc: Global,
    declarations: &[Declaration],
    deal: &Name,
    members: &[Name],
) -> Result<Vec<Step>, NoMemory>
    requires { length members.now ≤ most_parties }
    ensures { IfOk result (λ steps. steps.items
        ≡ steps_among declarations.now deal.now members.now) }
{
    let mut steps = Vec::new(alloc);
    for declaration in declarations {
        if let Declaration::Step {
            deal: own,
            from,
            to,
            ledger,
            asset,
            amount,
        } = declaration
        {
            if deal == own {
                steps.push(Step {
                    from: index_in(members, from),
                    to: index_in(members, to),
                    ledger: *ledger,
                    asset: *asset,
                    amount: *amount,
                })?;
            }
        }
    }
    Ok(steps)
}

/// Whether one of the steps is on the ledger.
fn is_on(steps: &[Step], ledger: &Name) -> bool
    ensures { result ≡ is_on steps.now ledger.now }
{
    steps.iter().any(|step| *ledger == step.ledger)
}

/// How many ledgers the steps name.
fn ledger_count(steps: &[Step]) -> usize
    ensures { result ≡ ledger_count steps.now }
{
    let mut count = 0;
    for (place, step) in steps.iter().enumerate() {
        if !is_on(&steps[..place], &step.ledger) {
            count += 1;
        }
    }
    count
}

/// Whether a step on the ledger would be on a ninth one.
fn is_ninth(steps: &[Step], ledger: &Name) -> bool
    ensures { result ≡ is_ninth steps.now ledger.now }
{
    !is_on(steps, ledger) && ledger_count(steps) >= MOST_LEDGERS
}

/// What the steps move of the asset on the ledger in all. It may exceed an amount.
fn total(steps: &[Step], ledger: &Name, asset: &Name) -> u128
    requires { length steps.now < most_steps }
    ensures value { result ≡ total_of steps.now ledger.now asset.now }
    ensures small { result < 2 ^ 127 }
{
    let mut sum = 0;
    for step in steps {
        if step.is_of(ledger, asset) {
            sum += u128::from(step.amount);
        }
    }
    sum
}

/// Whether a deal of these members may have the step behind these steps.
pub fn is_good_step(
    members: &[Name],
    steps: &[Step],
    from: &Name,
    to: &Name,
    ledger: &Name,
    asset: &Name,
    amount: u64,
) -> bool
    ensures { result
        ≡ is_good_step members.now steps.now from.now to.now ledger.now asset.now amount }
{
    if !(is_among(members, from) && is_among(members, to)) {
        return false;
    }
    if from == to || amount == 0 {
        return false;
    }
    if steps.len() >= MOST_STEPS || is_ninth(steps, ledger) {
        return false;
    }
    total(steps, ledger, asset) + u128::from(amount) <= u128::from(GREATEST_AMOUNT)
}

/// Whether the members and steps are those of a whole deal.
pub fn is_whole_deal(members: &[Name], steps: &[Step]) -> bool
    requires { length members.now ≤ most_parties }
    ensures { result ≡ is_whole_deal members.now steps.now }
{
    are_different(members) && !steps.is_empty() && is_connected(steps, members.len())
}

/// Whether the deal of this name and these members is whole.
fn is_whole_named(
    alloc: Global,
    declarations: &[Declaration],
    name: &Name,
    members: &[Name],
) -> Result<bool, NoMemory>
    ensures { IfOk result (λ whole. whole
        ≡ is_whole_named declarations.now name.now members.now) }
{
    if members.len() > MOST_PARTIES {
        return Ok(false);
    }
    let steps = steps_among(alloc, declarations, name, members)?;
    Ok(is_whole_deal(members, &steps))
}

/// Whether the declaration is no deal, or that of a whole one.
fn is_whole_line(
    alloc: Global,
    declarations: &[Declaration],
    declaration: &Declaration,
) -> Result<bool, NoMemory>
    ensures { IfOk result (λ whole. whole ≡ is_whole_line declarations.now declaration.now) }
{
    match declaration {
        Declaration::Deal { name, parties } => {
            is_whole_named(alloc, declarations, name, parties.as_slice())
        }
        _ => Ok(true),
    }
}

/// Whether each deal among the declarations is whole.
pub fn are_whole(alloc: Global, declarations: &[Declaration]) -> Result<bool, NoMemory>
    ensures { IfOk result (λ whole. whole ≡ are_whole declarations.now) }
{
    for declaration in declarations {
        if !is_whole_line(alloc, declarations, declaration)? {
            return Ok(false);
        }
    }
    Ok(true)
}
