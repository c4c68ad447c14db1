//! Runs that meet all premises of the promise but one. Each law is the contract of an empty
//! function.

ghost use Rattle.std.specs.Prelude.{◌≡◌, ◌<◌, List, [], ◌∷◌};
ghost use Rattle.dh_base.specs.declared.outcome.Outcome.TheVariants.{Commit, Abort};
ghost use Rattle.clear_core.specs.Clearing.{due_of};
ghost use Rattle.escrow_book.specs.History.{payout_of};
ghost use Rattle.ledger_rows.specs.Entries.{book_of};
ghost use Rattle.payoff.specs.Moments.{IsOpening, IsRun, IsGiven, after_all};
ghost use Rattle.payoff.specs.Promise.{HasCertified, IsSettledIn, IsCompliantIn};
ghost use Rattle.promise_met.specs.Loan.{ann, coins, coin, the_deal, rows, register_entry, the_log};
ghost use Rattle.premises_matter.specs.Misled.{house_with_lie, unlent_entries, misled_run};
ghost use Rattle.premises_matter.specs.Torn.{HasEntered, notes, two_ledgers, abort_log, torn_run};

use compliant_deals::laws::compliant_deal;

/// An agent that hears what no ledger said can be paid less than its due. All is as in an opening
/// and in a run of it, but that a statement is there which no ledger gave. Ann hears it and
/// commits, before anything was lent to her.
pub fn statements_matter()
    ensures opens { IsOpening (record house_with_lie { pool = [] }) }
    ensures runs { IsRun house_with_lie misled_run }
    ensures given { IsGiven house_with_lie misled_run }
    ensures certified { HasCertified (after_all misled_run house_with_lie) (the_log ∷ []) }
    ensures settles { IsSettledIn (after_all misled_run house_with_lie) coins the_deal.id Commit
        unlent_entries }
    ensures complies { IsCompliantIn (after_all misled_run house_with_lie) unlent_entries
        the_deal.id 0 ann }
    ensures lost { payout_of (book_of rows unlent_entries) the_deal.id Commit ann coin
        < due_of the_deal.steps 0 coins coin }
{
    compliant_deal();
}

/// Where of two certified lists neither begins the other, two ledgers can settle a deal
/// differently. All else is as it must be. The set has one seat, whose key has signed both lists.
pub fn one_log_matters()
    ensures opens { IsOpening two_ledgers }
    ensures runs { IsRun two_ledgers torn_run }
    ensures given { IsGiven two_ledgers torn_run }
    ensures entered { HasEntered (after_all torn_run two_ledgers) (the_log ∷ abort_log ∷ []) }
    ensures commits { IsSettledIn (after_all torn_run two_ledgers) coins the_deal.id Commit
        unlent_entries }
    ensures aborts { IsSettledIn (after_all torn_run two_ledgers) notes the_deal.id Abort
        (register_entry ∷ []) }
{
    compliant_deal();
}
