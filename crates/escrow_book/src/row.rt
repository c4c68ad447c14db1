//! What a part of a book is made of.

ghost use Rattle.std.specs.Prelude.{◌≡◌};
ghost use Rattle.std.specs.List.{find};
ghost use Rattle.std.specs.Option.{option_copied};
ghost use Rattle.escrow_book.specs.Base.{is_hold, is_moves};

use dh_base::{Id, List, Name, Outcome};

/// A row of a part of a book.
#[derive(Drop)]
pub enum BookRow {
    /// What an account can spend of an asset.
    Free {
        account: Id,
        asset: Name,
        amount: u64,
    },
    /// A registered deal with its parties, and how it ended.
    Deal {
        deal: Id,
        parties: List<Id>,
        settled: Option<Outcome>,
    },
    /// What a party owns of an asset in a deal, if the deal commits and if it aborts.
    Hold {
        deal: Id,
        account: Id,
        asset: Name,
        commit: u64,
        abort: u64,
    },
    /// How many transfers a party has made in a deal.
    Moves {
        deal: Id,
        account: Id,
        moves: u32,
    },
}

/// What a party owns of an asset in a deal, if the deal commits and if it aborts.
#[derive(Clone, Copy)]
pub struct HoldRow {
    pub deal: Id,
    pub account: Id,
    pub asset: Name,
    pub commit: u64,
    pub abort: u64,
}

/// How many transfers a party has made in a deal.
#[derive(Clone, Copy)]
pub struct MovesRow {
    pub deal: Id,
    pub account: Id,
    pub moves: u32,
}

/// The row of that deal, account and asset that stands first.
pub(crate) fn find_hold<'a>(
    rows: &'a [HoldRow],
    deal: &Id,
    account: &Id,
    asset: &Name,
) -> Option<&'a HoldRow>
    ensures { option_copied result ≡ find (is_hold deal.now account.now asset.now) rows.now }
{
    rows.iter().find(|row| *deal == row.deal && *account == row.account && *asset == row.asset)
}

/// The row of that deal and account that stands first.
pub(crate) fn find_moves<'a>(rows: &'a [MovesRow], deal: &Id, account: &Id) -> Option<&'a MovesRow>
    ensures { option_copied result ≡ find (is_moves deal.now account.now) rows.now }
{
    rows.iter()
        .find(|row| *deal == row.deal && *account == row.account)
}
