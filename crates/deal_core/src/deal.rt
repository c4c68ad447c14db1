//! Deals.

ghost use Rattle.std.specs.Prelude.{◌≡◌, ◌<◌, ◌^◌, IfSome, length};
ghost use Rattle.deal_core.specs.Deals.{matrix_of, index_of_account};

use crate::party::{self, Party};
use crate::step::Step;
use dh_base::{Id, List, Name};
use std::marker::Model;

/// A deal that was read from its text. Its id is the digest of that text.
///
/// A contract sees its fields, with lists and names as lists.
#[derive(Drop)]
pub struct Deal {
    pub id: Id,
    pub house: Id,
    pub name: Name,
    pub parties: List<Party>,
    pub steps: List<Step>,
}

impl Model for Deal {
    ghost use Rattle.deal_core.specs.Deals.{DealTold};
    ghost use Rattle.deal_core.specs.Kept.{IsDeal};

    ghost Value = { DealTold };

    ghost view = { λ d. record {
      id = d.id;
      house = d.house;
      name = d.name;
      parties = d.parties;
      steps = d.steps;
    } };

    ghost invariant = { λ d. IsDeal (record {
      id = d.id;
      house = d.house;
      name = d.name;
      parties = d.parties;
      steps = d.steps;
    }) };
}

impl Deal {
    ghost use Rattle.deal_core.specs.Kept.{IsDeal};

    /// The steps, in their order.
    pub fn steps(&self) -> &[Step]
        ensures value { result.now ≡ self.now.steps }
        ensures kept { IsDeal self.now }
    {
        self.steps.as_slice()
    }

    /// The parties, by their indices.
    pub fn parties(&self) -> &[Party]
        ensures value { result.now ≡ self.now.parties }
        ensures kept { IsDeal self.now }
    {
        self.parties.as_slice()
    }
}

/// What the steps move of the asset on the ledger from the one party to the other.
fn sum_between(steps: &[Step], from: u16, to: u16, ledger: &Name, asset: &Name) -> u64
    requires { matrix_of steps.now from to ledger.now asset.now < 2 ^ 63 }
    ensures { result ≡ matrix_of steps.now from to ledger.now asset.now }
{
    let mut sum = 0;
    for step in steps {
        if step.is_between(from, to, ledger, asset) {
            sum += step.amount;
        }
    }
    sum
}

/// The entry of the deal's matrix: what `from` passes to `to` of the asset on the ledger.
pub fn matrix(deal: &Deal, from: u16, to: u16, ledger: &Name, asset: &Name) -> u64
    ensures { result ≡ matrix_of deal.now.steps from to ledger.now asset.now }
{
    sum_between(deal.steps(), from, to, ledger, asset)
}

/// The index of the party with the account.
pub fn party_of(deal: &Deal, account: &Id) -> Option<u16>
    ensures value { result ≡ index_of_account deal.now.parties account.now }
    ensures within { IfSome result (λ index. index < length deal.now.parties) }
{
    party::index_of_account(deal.parties(), account)
}
