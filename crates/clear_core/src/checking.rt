//! Checking a deal against a party's terms.

ghost use Rattle.std.specs.Prelude.{◌≡◌, ◌<◌, ◌^◌, length, IfSome, IfNone};
ghost use Rattle.std.specs.List.{find};
ghost use Rattle.std.specs.Option.{option_copied};
ghost use Rattle.clear_core.specs.Pairs.{is_earlier};
ghost use Rattle.clear_core.specs.TermsKept.{is_over, earlier_over, is_under, NoneOver, IsFirstOver, ChecksTerms};

use crate::clearing::{due, need};
use crate::limit::{Limit, allowed};
use crate::pair::Pair;
use crate::term_fault::TermFault;
use crate::terms::Terms;
use deal_core::{Deal, Step};

/// Whether the deal asks more of the pair than the limits allow.
fn is_over(deal: &Deal, party: u16, gives: &[Limit], pair: &Pair) -> bool
    requires { party < length deal.now.parties }
    ensures { result ≡ is_over deal.now.steps party gives.now pair.now }
{
    let asked = need(deal, party, &pair.ledger, &pair.asset);
    allowed(gives, &pair.ledger, &pair.asset) < u128::from(asked)
}

/// Whether the pair stands before the one found so far.
fn is_earlier(pair: &Pair, found: &Option<Pair>) -> bool
    ensures { result ≡ is_earlier pair.now found.now }
{
    match found {
        Some(other) => pair < other,
        None => true,
    }
}

/// The pair of the step, where the deal asks too much of it and it stands before the one found so
/// far, or that one.
fn earlier_over(
    deal: &Deal,
    party: u16,
    gives: &[Limit],
    step: &Step,
    found: Option<Pair>,
) -> Option<Pair>
    requires { party < length deal.now.parties }
    ensures { result ≡ earlier_over deal.now.steps party gives.now step.now found }
{
    let pair = Pair::of(step);
    if is_over(deal, party, gives, &pair) && is_earlier(&pair, &found) {
        Some(pair)
    } else {
        found
    }
}

/// The first pair of the deal, in ascending order, of which it asks more than the limits allow.
fn first_over(deal: &Deal, party: u16, gives: &[Limit]) -> Option<Pair>
    requires { party < length deal.now.parties }
    ensures some { IfSome result (IsFirstOver deal.now.steps party gives.now) }
    ensures none { IfNone result (NoneOver deal.now.steps party gives.now) }
{
    let mut found = None;
    for step in deal.steps() {
        found = earlier_over(deal, party, gives, step, found);
    }
    found
}

/// Whether the deal owes less than the limit.
fn is_under(deal: &Deal, party: u16, limit: &Limit) -> bool
    requires { party < length deal.now.parties }
    ensures { result ≡ is_under deal.now.steps party limit.now }
{
    due(deal, party, &limit.ledger, &limit.asset) < limit.amount
}

/// The first limit that the deal owes less than.
fn first_under<'a>(deal: &Deal, party: u16, gets: &'a [Limit]) -> Option<&'a Limit>
    requires { party < length deal.now.parties }
    ensures { option_copied result ≡ find (is_under deal.now.steps party) gets.now }
{
    for limit in gets {
        if is_under(deal, party, limit) {
            return Some(limit);
        }
    }
    None
}

/// Checks that the deal keeps the party's terms, and answers the first limit that it breaks: first
/// those of what is given.
pub fn check_terms(deal: &Deal, party: u16, terms: &Terms) -> Result<(), TermFault>
    requires { party < length deal.now.parties }
    ensures { ChecksTerms deal.now.steps party terms.now result }
{
    if let Some(pair) = first_over(deal, party, terms.gives.as_slice()) {
        return Err(TermFault::GivesMore {
            ledger: pair.ledger,
            asset: pair.asset,
            asked: need(deal, party, &pair.ledger, &pair.asset),
            allowed: allowed(terms.gives.as_slice(), &pair.ledger, &pair.asset) as u64,
        });
    }
    if let Some(limit) = first_under(deal, party, terms.gets.as_slice()) {
        return Err(TermFault::GetsLess {
            ledger: limit.ledger,
            asset: limit.asset,
            offered: due(deal, party, &limit.ledger, &limit.asset),
            wanted: limit.amount,
        });
    }
    Ok(())
}
