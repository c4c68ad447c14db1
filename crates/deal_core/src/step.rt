//! A step of a deal.

use dh_base::Name;

/// A step of a deal: `from` passes the amount of the asset on the ledger to `to`. Both are indices
/// of parties.
#[derive(Clone, Copy)]
pub struct Step {
    pub from: u16,
    pub to: u16,
    pub ledger: Name,
    pub asset: Name,
    pub amount: u64,
}

impl Step {
    ghost use Rattle.std.specs.Prelude.{◌≡◌};
    ghost use Rattle.deal_core.specs.Deals.{is_of, is_between};

    /// Whether it moves the asset on the ledger.
    pub fn is_of(&self, ledger: &Name, asset: &Name) -> bool
        ensures { result ≡ is_of ledger.now asset.now self.now }
    {
        *ledger == self.ledger && *asset == self.asset
    }

    /// Whether it moves the asset on the ledger from the one party to the other.
    pub fn is_between(&self, from: u16, to: u16, ledger: &Name, asset: &Name) -> bool
        ensures { result ≡ is_between from to ledger.now asset.now self.now }
    {
        from == self.from && to == self.to && self.is_of(ledger, asset)
    }
}
