//! A run that meets every premise, and one that meets all but one. Each law is the contract of an
//! empty function.

ghost use Rattle.std.specs.Prelude.{◌≡◌, ◌<◌, List, [], ◌∷◌};
ghost use Rattle.dh_base.specs.declared.outcome.Outcome.TheVariants.{Commit};
ghost use Rattle.clear_core.specs.Clearing.{due_of};
ghost use Rattle.escrow_book.specs.History.{payout_of};
ghost use Rattle.ledger_rows.specs.Entries.{book_of};
ghost use Rattle.payoff.specs.Worlds.{HasOneText};
ghost use Rattle.payoff.specs.Moments.{IsOpening, IsRun, IsGiven, after_all};
ghost use Rattle.payoff.specs.Promise.{HasCertified, IsSettledIn, IsCompliantIn};
ghost use Rattle.promise_met.specs.Loan.{ann, coins, coin, the_deal, rows, the_entries, the_log};
ghost use Rattle.promise_met.specs.Run.{opening, the_run, forged_entries, forged_run};

use compliant_deals::laws::compliant_deal;

/// A run that meets every premise of the promise: its claim is certified by a signature of the
/// seat's key, and what Ann is said to have signed stands in her texts. The ledger settles the deal
/// by commit, and pays Ann, who complies, the two coins that it owes her.
pub fn premises_are_met()
    ensures opens { IsOpening opening }
    ensures runs { IsRun opening the_run }
    ensures given { IsGiven opening the_run }
    ensures certified { HasCertified (after_all the_run opening) (the_log ∷ []) }
    ensures settles { IsSettledIn (after_all the_run opening) coins the_deal.id Commit the_entries }
    ensures complies { IsCompliantIn (after_all the_run opening) the_entries the_deal.id 0 ann }
    ensures paid { payout_of (book_of rows the_entries) the_deal.id Commit ann coin ≡ 2 }
{
    compliant_deal();
}

/// Without unforged signatures the promise is false. The same run with one act more, which Ann
/// never signed: all else is as it was, and she is paid less than her due.
pub fn unforged_matters()
    ensures runs { IsRun opening forged_run }
    ensures one_text { HasOneText (after_all forged_run opening) }
    ensures certified { HasCertified (after_all forged_run opening) (the_log ∷ []) }
    ensures settles { IsSettledIn (after_all forged_run opening) coins the_deal.id Commit
        forged_entries }
    ensures complies { IsCompliantIn (after_all forged_run opening) forged_entries the_deal.id 0
        ann }
    ensures lost { payout_of (book_of rows forged_entries) the_deal.id Commit ann coin
        < due_of the_deal.steps 0 coins coin }
{
    compliant_deal();
}
