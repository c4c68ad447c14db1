//! Laws of runs. Each is the contract of an empty function.

ghost use Rattle.std.specs.Prelude.{◌≡◌, ◌≢◌, ◌<◌, ◌≤◌, ◌++◌, ℕ, List, Some, None};
ghost use Rattle.dh_base.specs.declared.id.Id.{Id};
ghost use Rattle.dh_base.specs.declared.outcome.Outcome.{Outcome};
ghost use Rattle.dh_base.specs.declared.outcome.Outcome.TheVariants.{Commit};
ghost use Rattle.act_text.specs.ActTexts.{act_text};
ghost use Rattle.act_text.specs.declared.act.Act.{Act};
ghost use Rattle.cert_core.specs.SeatTexts.{SeatText, seat_text};
ghost use Rattle.clear_core.specs.Clearing.{due_of};
ghost use Rattle.escrow_book.specs.History.{if_abort_of, payout_of, settlement_of};
ghost use Rattle.ledger_rows.specs.declared.entry.Entry.{Entry};
ghost use Rattle.ledger_rows.specs.Entries.{book_of};
ghost use Rattle.vote_log.specs.Entry.{Entry as Rec};
ghost use Rattle.vote_log.specs.Deciding.{outcome_of};
ghost use Rattle.payoff.specs.Worlds.{World, LedgerState, book_in};
ghost use Rattle.payoff.specs.Moments.{Moment, IsOpening, IsRun, IsGiven, after_all};
ghost use Rattle.payoff.specs.Promise.{HasCertified, IsLongest, IsSettledIn, IsFrontIn, IsCompliantIn, HasCommitted, HoldsAbort, IsDue, IsEscrow, IsSafe};

use clear_core::laws::escrowed_needs;
use ledger_history::laws::{
    assets_are_conserved, escrowed_once, escrows_are_registered, fronts_are_histories,
    moved_no_more, plans_have_turns, settlements_pay,
};
use vote_log::laws::{abort_decides, first_decisive, outcome_stays};

/// What an agent signs is no text of a seat.
pub fn acts_are_no_seat_texts()
    ensures { (text : SeatText) (act : Act) → seat_text text ≢ act_text act }
{}

/// Each settlement has the outcome that the certified log gives the deal, so no two ledgers settle
/// a deal differently.
pub fn agreement()
    ensures log { (w : World) (run : List Moment) (certified : List (List Rec)) (name : List ℕ)
        (deal : Id) (outcome : Outcome) (before : List Entry) (log : List Rec) →
        IsOpening w → IsRun w run → IsGiven w run → HasCertified (after_all run w) certified →
        IsSettledIn (after_all run w) name deal outcome before → IsLongest certified log →
        (at : ℕ) × (outcome_of log deal ≡ Some (record { outcome = outcome; at = at })) }
    ensures same { (w : World) (run : List Moment) (certified : List (List Rec))
        (name other : List ℕ) (deal : Id) (outcome second : Outcome) (before earlier : List Entry) →
        IsOpening w → IsRun w run → IsGiven w run → HasCertified (after_all run w) certified →
        IsSettledIn (after_all run w) name deal outcome before →
        IsSettledIn (after_all run w) other deal second earlier → outcome ≡ second }
{
    outcome_stays();
}

/// Where a ledger settles a deal by commit, a compliant party has signed its commit, and is paid at
/// least its due of each asset.
pub fn commit_pays()
    ensures signed { (w : World) (run : List Moment) (certified : List (List Rec))
        (name : List ℕ) (id : Id) (index : ℕ) (account : Id) (before : List Entry) →
        IsOpening w → IsRun w run → IsGiven w run → HasCertified (after_all run w) certified →
        IsSettledIn (after_all run w) name id Commit before →
        (c : IsCompliantIn (after_all run w) before id index account) →
        HasCommitted c.agent c.deal id index }
    ensures paid { (w : World) (run : List Moment) (certified : List (List Rec))
        (name : List ℕ) (id : Id) (index : ℕ) (account : Id) (asset : List ℕ)
        (before : List Entry) →
        IsOpening w → IsRun w run → IsGiven w run → HasCertified (after_all run w) certified →
        (s : IsSettledIn (after_all run w) name id Commit before) →
        (c : IsCompliantIn (after_all run w) before id index account) →
        due_of c.deal.steps index name asset
        ≤ payout_of (book_of s.ledger.rows before) id Commit account asset }
{
    first_decisive();
    moved_no_more();
    plans_have_turns();
}

/// What a compliant party has put up in a deal is nothing, or its need. So it is paid that, where
/// the deal aborts.
pub fn abort_returns()
    ensures { (w : World) (run : List Moment) (name : List ℕ) (id : Id) (index : ℕ) (account : Id)
        (asset : List ℕ) (front : List Entry) →
        IsOpening w → IsRun w run → IsGiven w run → (f : IsFrontIn (after_all run w) name front) →
        (c : IsCompliantIn (after_all run w) front id index account) →
        IsEscrow c.deal index name asset
        (if_abort_of (book_of f.ledger.rows front) id account asset) }
{
    escrowed_needs();
    escrowed_once();
}

/// Once an abort of a party of the deal stands behind its start in a list of records, these and all
/// that go on with them decide the deal. So a claim of one of them that certifies settles each
/// ledger where something is escrowed in the deal, which is still open.
pub fn acceptance()
    ensures { (w : World) (run : List Moment) (name : List ℕ) (ledger : LedgerState) (deal : Id)
        (account : Id) (asset : List ℕ) (log more : List Rec) →
        IsOpening w → IsRun w run → IsGiven w run → (after_all run w).ledgers name ≡ Some ledger →
        0 < if_abort_of (book_in ledger) deal account asset →
        settlement_of (book_in ledger) deal ≡ None → HoldsAbort log deal →
        IsDue ledger deal (log ++ more) }
{
    abort_decides();
    escrows_are_registered();
    outcome_stays();
}

/// Whatever deviating parties send, no two ledgers settle a deal differently, and a compliant party
/// gets at least its due on each ledger that commits and exactly its escrow on each that aborts.
pub fn promise()
    ensures { (w : World) (run : List Moment) (certified : List (List Rec)) →
        IsOpening w → IsRun w run → IsGiven w run → HasCertified (after_all run w) certified →
        IsSafe (after_all run w) certified }
{
    abort_returns();
    agreement();
    assets_are_conserved();
    commit_pays();
    fronts_are_histories();
    settlements_pay();
}
