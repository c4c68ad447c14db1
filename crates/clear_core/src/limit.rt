//! What a party asks of a deal, for one asset on one ledger.

ghost use Rattle.std.specs.Prelude.{◌≡◌, ◌<◌, ◌^◌, length};
ghost use Rattle.clear_core.specs.TermsKept.{allowed_of};

use dh_base::Name;

/// An amount of an asset on a ledger.
#[derive(Clone, Copy)]
pub struct Limit {
    pub ledger: Name,
    pub asset: Name,
    pub amount: u64,
}

impl Limit {
    ghost use Rattle.std.specs.Prelude.{◌≡◌, ◌<◌, ◌^◌};
    ghost use Rattle.clear_core.specs.TermsKept.{allowance};

    /// What it allows of the asset on the ledger.
    fn allowance(&self, ledger: &Name, asset: &Name) -> u64
        ensures value { result ≡ allowance ledger.now asset.now self.now }
        ensures small { result < 2 ^ 64 }
    {
        if *ledger == self.ledger && *asset == self.asset {
            self.amount
        } else {
            0
        }
    }
}

/// What the limits allow of the asset on the ledger together.
pub(crate) fn allowed(limits: &[Limit], ledger: &Name, asset: &Name) -> u128
    ensures { result ≡ allowed_of limits.now ledger.now asset.now }
{
    let mut sum: u128 = 0;
    for limit in limits {
        sum += u128::from(limit.allowance(ledger, asset));
    }
    sum
}
