//! What a book keeps at hand of a registered deal.

ghost use Rattle.std.specs.Prelude.{◌≡◌, map};
ghost use Rattle.std.specs.Option.{option_copied};
ghost use Rattle.escrow_book.specs.Base.{find_deal};
ghost use Rattle.escrow_book.specs.Kept.{with_outcome};

use dh_base::{Id, List, Outcome};

/// A registered deal with its parties, and how it ended.
#[derive(Drop)]
pub(crate) struct KnownDeal {
    pub(crate) deal: Id,
    pub(crate) parties: List<Id>,
    pub(crate) outcome: Option<Outcome>,
}

/// The deal, if it is known.
pub(crate) fn find_deal<'a>(deals: &'a [KnownDeal], deal: &Id) -> Option<&'a KnownDeal>
    ensures { option_copied result ≡ find_deal deals.now deal.now }
{
    deals.iter().find(|known| *deal == known.deal)
}

/// Notes how the deal ended.
pub(crate) fn note_outcome(deals: &mut [KnownDeal], deal: &Id, outcome: Outcome)
    ensures { deals.new ≡ map (with_outcome deal.now outcome) deals.old }
{
    for place in 0..deals.len() {
        if *deal == deals[place].deal {
            deals[place].outcome = Some(outcome);
        }
    }
}
