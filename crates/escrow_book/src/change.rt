//! What happens on a ledger.

use dh_base::{Id, List, Name, Outcome};

/// A change that a book has accepted.
#[derive(Drop)]
pub enum Change {
    /// The deal is known from here on, with its parties.
    Registered {
        deal: Id,
        parties: List<Id>,
    },
    /// A party puts an amount of its own under the deal.
    Escrowed {
        deal: Id,
        party: Id,
        asset: Name,
        amount: u64,
    },
    /// A party hands an escrowed amount to another party, if the deal commits.
    Transferred {
        deal: Id,
        from: Id,
        to: Id,
        asset: Name,
        amount: u64,
    },
    /// An account pays another one, outside any deal.
    Paid {
        from: Id,
        to: Id,
        asset: Name,
        amount: u64,
    },
    /// The deal ends, and what it holds is paid out.
    Settled {
        deal: Id,
        outcome: Outcome,
    },
}

impl Change {
    ghost use Rattle.std.specs.Prelude.{◌≡◌, ◌+◌};
    ghost use Rattle.escrow_book.specs.History.{escrowed, received, given, is_move};
    ghost use Rattle.escrow_book.specs.Kept.{is_under};

    /// Whether it moves something in the deal.
    pub(crate) fn is_under(&self, deal: &Id) -> bool
        ensures { result ≡ is_under deal.now self.now }
    {
        match self {
            Change::Escrowed { deal: within, .. } | Change::Transferred { deal: within, .. } => {
                deal == within
            }
            _ => false,
        }
    }

    /// What the party puts under the deal.
    pub(crate) fn escrowed(&self, deal: &Id, party: &Id, asset: &Name) -> u64
        ensures { result ≡ escrowed deal.now party.now asset.now self.now }
    {
        match self {
            Change::Escrowed {
                deal: within,
                party: owner,
                asset: kind,
                amount,
            } if deal == within && party == owner && asset == kind => *amount,
            _ => 0,
        }
    }

    /// What the party puts under the deal or gets in it.
    pub(crate) fn came(&self, deal: &Id, party: &Id, asset: &Name) -> u64
        ensures { result
            ≡ escrowed deal.now party.now asset.now self.now
            + received deal.now party.now asset.now self.now }
    {
        match self {
            Change::Escrowed {
                deal: within,
                party: owner,
                asset: kind,
                amount,
            } if deal == within && party == owner && asset == kind => *amount,
            Change::Transferred {
                deal: within,
                to,
                asset: kind,
                amount,
                ..
            } if deal == within && party == to && asset == kind => *amount,
            _ => 0,
        }
    }

    /// What the party gives in the deal.
    pub(crate) fn given(&self, deal: &Id, party: &Id, asset: &Name) -> u64
        ensures { result ≡ given deal.now party.now asset.now self.now }
    {
        match self {
            Change::Transferred {
                deal: within,
                from,
                asset: kind,
                amount,
                ..
            } if deal == within && party == from && asset == kind => *amount,
            _ => 0,
        }
    }

    /// Whether it is a transfer by the party in the deal.
    pub(crate) fn is_move(&self, deal: &Id, party: &Id) -> bool
        ensures { result ≡ is_move deal.now party.now self.now }
    {
        match self {
            Change::Transferred {
                deal: within,
                from,
                ..
            } => deal == within && party == from,
            _ => false,
        }
    }
}
