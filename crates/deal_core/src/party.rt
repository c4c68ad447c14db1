//! The parties of a deal.

ghost use Rattle.std.specs.Prelude.{◌≡◌, ◌<◌, ◌≤◌, IfSome, length};
ghost use Rattle.std.specs.List.{list_any};
ghost use Rattle.dh_base.specs.Limits.{most_parties};
ghost use Rattle.deal_core.specs.Deals.{has_account, index_of_account};
ghost use Rattle.deal_core.specs.Drafts.{is_party, index_in};

use dh_base::{Id, Name};

/// A party of a deal: the name that the deal's text calls it by, and its account.
#[derive(Clone, Copy)]
pub struct Party {
    pub name: Name,
    pub account: Id,
}

impl Party {
    ghost use Rattle.std.specs.Prelude.{◌≡◌};
    ghost use Rattle.deal_core.specs.Deals.{is_named, has_account};

    /// Whether it has this name.
    fn is_named(&self, name: &Name) -> bool
        ensures { result ≡ is_named name.now self.now }
    {
        *name == self.name
    }

    /// Whether it has this account.
    fn has_account(&self, account: &Id) -> bool
        ensures { result ≡ has_account account.now self.now }
    {
        *account == self.account
    }
}

/// Whether one of the parties has the name.
pub(crate) fn is_party(parties: &[Party], name: &Name) -> bool
    ensures { result ≡ is_party parties.now name.now }
{
    parties.iter().any(|party| party.is_named(name))
}

/// Whether one of the parties has the account.
pub(crate) fn is_account(parties: &[Party], account: &Id) -> bool
    ensures { result ≡ list_any (has_account account.now) parties.now }
{
    parties.iter().any(|party| party.has_account(account))
}

/// The index of the party with the name, and 0 where none has it.
pub(crate) fn index_of_name(parties: &[Party], name: &Name) -> u16
    requires { length parties.now ≤ most_parties }
    ensures { result ≡ index_in parties.now name.now }
{
    for (index, party) in parties.iter().enumerate() {
        if party.is_named(name) {
            return index as u16;
        }
    }
    0
}

/// The index of the party with the account.
pub(crate) fn index_of_account(parties: &[Party], account: &Id) -> Option<u16>
    requires { length parties.now ≤ most_parties }
    ensures value { result ≡ index_of_account parties.now account.now }
    ensures within { IfSome result (λ index. index < length parties.now) }
{
    for (index, party) in parties.iter().enumerate() {
        if party.has_account(account) {
            return Some(index as u16);
        }
    }
    None
}
