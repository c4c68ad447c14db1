//! What a plain script declares.

use dh_base::{List, Name};

/// A line that declares: it stands before `begin`.
#[derive(Drop)]
pub enum Declaration {
    /// A ledger of this name.
    Ledger {
        name: Name,
    },
    /// An opening row: the party begins with the amount of the asset on the ledger.
    Open {
        ledger: Name,
        asset: Name,
        party: Name,
        amount: u64,
    },
    /// A deal of these parties, in this order.
    Deal {
        name: Name,
        parties: List<Name>,
    },
}

impl Declaration {
    ghost use Rattle.std.specs.Prelude.{◌≡◌};
    ghost use Rattle.plain_script.specs.BoundNames.{
      is_ledger_named,
      is_deal_named,
      is_ledger_line,
      is_deal_line,
      is_opening_line,
      opens_on,
      opens_asset,
      opens_row,
      amount_opened,
      parties_named,
    };

    /// Whether it is the ledger of this name.
    pub fn is_ledger_named(&self, name: &Name) -> bool
        ensures { result ≡ is_ledger_named name.now self.now }
    {
        match self {
            Declaration::Ledger { name: ledger } => name == ledger,
            _ => false,
        }
    }

    /// Whether it is the deal of this name.
    pub fn is_deal_named(&self, name: &Name) -> bool
        ensures { result ≡ is_deal_named name.now self.now }
    {
        match self {
            Declaration::Deal { name: deal, .. } => name == deal,
            _ => false,
        }
    }

    /// Whether it declares a ledger.
    pub fn is_ledger(&self) -> bool
        ensures { result ≡ is_ledger_line self.now }
    {
        match self {
            Declaration::Ledger { .. } => true,
            _ => false,
        }
    }

    /// Whether it declares a deal.
    pub fn is_deal(&self) -> bool
        ensures { result ≡ is_deal_line self.now }
    {
        match self {
            Declaration::Deal { .. } => true,
            _ => false,
        }
    }

    /// Whether it is an opening row.
    pub fn is_opening(&self) -> bool
        ensures { result ≡ is_opening_line self.now }
    {
        match self {
            Declaration::Open { .. } => true,
            _ => false,
        }
    }

    /// Whether it is an opening row of this ledger.
    pub fn opens_on(&self, on: &Name) -> bool
        ensures { result ≡ opens_on on.now self.now }
    {
        match self {
            Declaration::Open { ledger, .. } => on == ledger,
            _ => false,
        }
    }

    /// Whether it is an opening row of this ledger for this asset.
    pub fn opens_asset(&self, on: &Name, of: &Name) -> bool
        ensures { result ≡ opens_asset on.now of.now self.now }
    {
        match self {
            Declaration::Open { ledger, asset, .. } => on == ledger && of == asset,
            _ => false,
        }
    }

    /// Whether it is an opening row of this ledger for this asset and party.
    pub fn opens_row(&self, on: &Name, of: &Name, by: &Name) -> bool
        ensures { result ≡ opens_row on.now of.now by.now self.now }
    {
        match self {
            Declaration::Open {
                ledger,
                asset,
                party,
                ..
            } => on == ledger && of == asset && by == party,
            _ => false,
        }
    }

    /// The amount of an opening row, and 0 of any other line.
    pub fn amount_opened(&self) -> u64
        ensures { result ≡ amount_opened self.now }
    {
        match self {
            Declaration::Open { amount, .. } => *amount,
            _ => 0,
        }
    }

    /// The parties that it names.
    pub fn parties(&self) -> &[Name]
        ensures { result.now ≡ parties_named self.now }
    {
        match self {
            Declaration::Ledger { .. } => &[],
            Declaration::Open { party, .. } => std::slice::from_ref(party),
            Declaration::Deal { parties, .. } => parties.as_slice(),
        }
    }
}
