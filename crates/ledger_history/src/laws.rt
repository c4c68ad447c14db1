//! Laws of histories, and of the turns of plans. Each is the contract of an empty function.

ghost use Rattle.std.specs.Prelude.{◌≡◌, ◌≢◌, ◌<◌, ◌≤◌, ◌+◌, ◌⊎◌, ◌++◌, ◌∷◌, ℕ, IsTrue, List, [], None};
ghost use Rattle.std.specs.List.{Contains};
ghost use Rattle.dh_base.specs.declared.id.Id.{Id};
ghost use Rattle.dh_base.specs.declared.outcome.Outcome.{Outcome};
ghost use Rattle.dh_base.specs.declared.outcome.Outcome.TheVariants.{Commit};
ghost use Rattle.escrow_book.specs.Opening.{Row};
ghost use Rattle.escrow_book.specs.History.{free_of, if_abort_of, if_commit_of, is_known, moves_of, payout_of, settlement_of};
ghost use Rattle.escrow_book.specs.Conserved.{AreItsAccounts, IsConserved};
ghost use Rattle.escrow_book.specs.Reached.{IsReached};
ghost use Rattle.deal_core.specs.declared.step.Step.{Step};
ghost use Rattle.clear_core.specs.Clearing.{turns_of};
ghost use Rattle.clear_core.specs.Plans.{plan_of};
ghost use Rattle.clear_core.specs.declared.plan_act.PlanAct.TheVariants.{Transfer};
ghost use Rattle.ledger_rows.specs.declared.entry.Entry.{Entry};
ghost use Rattle.ledger_rows.specs.declared.entry.Entry.TheVariants.{Settlement};
ghost use Rattle.ledger_rows.specs.Entries.{book_of};
ghost use Rattle.ledger_history.specs.Histories.{IsHistory, IsNext};
ghost use Rattle.ledger_history.specs.PlannedActs.{HaveTurnsBelow, HaveOneEscrow, AreOnce};

use escrow_book::laws::{accepted_grows, conserved, reached_grows, settlement_pays};

/// What a ledger accepts behind a history makes a history with it.
pub fn histories_grow()
    ensures { (name : List ℕ) (rows : List Row) (entries : List Entry) (entry : Entry) →
        IsHistory name rows entries → IsNext name (book_of rows entries) entries entry →
        IsHistory name rows (entries ++ entry ∷ []) }
{}

/// The front of a history is a history.
pub fn fronts_are_histories()
    ensures { (name : List ℕ) (rows : List Row) (front rest : List Entry) →
        IsHistory name rows (front ++ rest) → IsHistory name rows front }
{}

/// The book of a history is one that a book reaches, so all that holds of books holds of ledgers.
pub fn books_are_reached()
    ensures { (name : List ℕ) (rows : List Row) (entries : List Entry) →
        IsHistory name rows entries → IsReached (book_of rows entries) }
{
    accepted_grows();
    reached_grows();
}

/// Of each asset of a ledger, what all accounts can spend and what is owned in unsettled deals is
/// together what there was at the opening.
pub fn assets_are_conserved()
    ensures { (name : List ℕ) (rows : List Row) (entries : List Entry) (accounts : List Id)
        (asset : List ℕ) → IsHistory name rows entries →
        AreItsAccounts (book_of rows entries) accounts →
        IsConserved (book_of rows entries) accounts asset }
{
    books_are_reached();
    conserved();
}

/// A settlement pays each account what the history before it gives for its outcome, and that comes
/// to what the account could spend.
pub fn settlements_pay()
    ensures { (name : List ℕ) (rows : List Row) (front : List Entry) (deal : Id)
        (outcome : Outcome) (account : Id) (asset : List ℕ) →
        IsHistory name rows (front ++ Settlement deal outcome ∷ []) →
        free_of (book_of rows (front ++ Settlement deal outcome ∷ [])) account asset
        ≡ free_of (book_of rows front) account asset
        + payout_of (book_of rows front) deal outcome account asset }
{
    books_are_reached();
    settlement_pays();
}

/// A history that holds a settlement of a deal has settled it.
pub fn settlements_stand()
    ensures { (rows : List Row) (entries : List Entry) (deal : Id) (outcome : Outcome) →
        Contains entries (Settlement deal outcome) →
        settlement_of (book_of rows entries) deal ≢ None }
{}

/// A deal in which anything is escrowed is registered.
pub fn escrows_are_registered()
    ensures { (name : List ℕ) (rows : List Row) (entries : List Entry) (deal account : Id)
        (asset : List ℕ) → IsHistory name rows entries →
        0 < if_abort_of (book_of rows entries) deal account asset →
        IsTrue (is_known (book_of rows entries) deal) }
{}

/// Once an account has made so many moves in a deal as its transfers there have turns, what it owns
/// if the deal commits never falls.
pub fn moved_no_more()
    ensures { (name : List ℕ) (rows : List Row) (front rest : List Entry) (deal account : Id)
        (turns : ℕ) (asset : List ℕ) → IsHistory name rows (front ++ rest) →
        HaveTurnsBelow name rest deal account turns →
        turns ≤ moves_of (book_of rows front) deal account →
        if_commit_of (book_of rows front) deal account asset
        ≤ if_commit_of (book_of rows (front ++ rest)) deal account asset }
{}

/// So where it then owned its due, that comes at least to what it can spend when the deal commits.
pub fn dues_are_paid()
    ensures { (name : List ℕ) (rows : List Row) (front rest : List Entry) (deal account : Id)
        (turns due : ℕ) (asset : List ℕ) →
        IsHistory name rows (front ++ rest ++ Settlement deal Commit ∷ []) →
        HaveTurnsBelow name rest deal account turns →
        turns ≤ moves_of (book_of rows front) deal account →
        due ≤ if_commit_of (book_of rows front) deal account asset →
        free_of (book_of rows (front ++ rest)) account asset + due
        ≤ free_of (book_of rows (front ++ rest ++ Settlement deal Commit ∷ [])) account asset }
{
    fronts_are_histories();
    moved_no_more();
    settlements_pay();
}

/// Where each escrow of an asset by the account in the deal has one amount and was signed by its
/// key, and no text stands under two keys, what the account has put up is 0 or that amount.
pub fn escrowed_once()
    ensures { (name : List ℕ) (rows : List Row) (entries : List Entry) (texts : List (List ℕ))
        (deal account : Id) (asset : List ℕ) (amount : ℕ) → IsHistory name rows entries →
        HaveOneEscrow name entries texts deal account asset amount → AreOnce texts →
        (if_abort_of (book_of rows entries) deal account asset ≡ 0)
        ⊎ (if_abort_of (book_of rows entries) deal account asset ≡ amount) }
{}

/// A transfer of a plan has a turn below the party's turns on that ledger.
pub fn plans_have_turns()
    ensures { (steps : List Step) (party : ℕ) (ledger : List ℕ) (turn to : ℕ) (asset : List ℕ)
        (amount : ℕ) → Contains (plan_of steps party) (Transfer ledger turn to asset amount) →
        turn < turns_of steps party ledger }
{}
