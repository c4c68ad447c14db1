//! Laws that show what a rule is for. Each is the contract of an empty function.

ghost use Rattle.std.specs.Prelude.{◌≡◌, ◌<◌, ◌+◌, ◌++◌, ◌∷◌, ℕ, List, [], None};
ghost use Rattle.dh_base.specs.declared.outcome.Outcome.TheVariants.{Commit};
ghost use Rattle.deal_core.specs.Deals.{DealTold};
ghost use Rattle.deal_core.specs.DealText.{IsSpellable};
ghost use Rattle.deal_core.specs.Kept.{IsDeal};
ghost use Rattle.clear_core.specs.Clearing.{need_of, due_of, turns_of};
ghost use Rattle.escrow_book.specs.Opening.{Row};
ghost use Rattle.escrow_book.specs.History.{if_abort_of, if_commit_of, moves_of, payout_of, settlement_of};
ghost use Rattle.ledger_rows.specs.declared.entry.Entry.{Entry};
ghost use Rattle.ledger_rows.specs.Entries.{book_of};
ghost use Rattle.ledger_history.specs.Histories.{IsHistory};
ghost use Rattle.ledger_history.specs.PlannedActs.{HaveOneEscrow};
ghost use Rattle.joined_deals.specs.DealTexts.{account_of};
ghost use Rattle.agent_rules.specs.Twice.{CanEscrowTwice, entries_twice, texts_twice};
ghost use Rattle.agent_rules.specs.Loans.{HasGiven, return_entry};

use compliant_deals::laws::compliant_front;
use ledger_history::laws::histories_grow;

/// An agent that signs a text under two keys can put up its need twice: the ledger accepts both
/// escrows, though each is of the party's plan and was signed by its key.
pub fn one_key_matters()
    ensures accepted { (deal : DealTold) (party : ℕ) (ledger asset : List ℕ) (rows : List Row) →
        IsDeal deal → IsSpellable deal → CanEscrowTwice deal party ledger asset rows →
        IsHistory ledger rows (entries_twice deal party ledger asset) }
    ensures planned { (deal : DealTold) (party : ℕ) (ledger asset : List ℕ) (rows : List Row) →
        IsDeal deal → IsSpellable deal → CanEscrowTwice deal party ledger asset rows →
        HaveOneEscrow ledger (entries_twice deal party ledger asset)
        (texts_twice deal party ledger asset) deal.id (account_of deal.parties party) asset
        (need_of deal.steps party ledger asset) }
    ensures put_up { (deal : DealTold) (party : ℕ) (ledger asset : List ℕ) (rows : List Row) →
        IsDeal deal → IsSpellable deal → CanEscrowTwice deal party ledger asset rows →
        if_abort_of (book_of rows (entries_twice deal party ledger asset)) deal.id
        (account_of deal.parties party) asset
        ≡ need_of deal.steps party ledger asset + need_of deal.steps party ledger asset }
{}

/// An agent that commits on amounts alone, before it has made its moves, can be paid less than its
/// due. The deal is open, and the party owns its due if it commits; then its own transfer is
/// accepted, and a commit pays it less.
pub fn moves_matter()
    ensures seen { (deal : DealTold) (ledger asset : List ℕ) (amount : ℕ) (rows : List Row)
        (entries : List Entry) (q : ℕ) → IsDeal deal → IsSpellable deal →
        HasGiven deal ledger asset amount rows entries q →
        (settlement_of (book_of rows entries) deal.id ≡ None)
        × (if_commit_of (book_of rows entries) deal.id (account_of deal.parties 0) asset
        ≡ due_of deal.steps 0 ledger asset) }
    ensures unmoved { (deal : DealTold) (ledger asset : List ℕ) (amount : ℕ) (rows : List Row)
        (entries : List Entry) (q : ℕ) → IsDeal deal → IsSpellable deal →
        HasGiven deal ledger asset amount rows entries q →
        moves_of (book_of rows entries) deal.id (account_of deal.parties 0)
        < turns_of deal.steps 0 ledger }
    ensures accepted { (deal : DealTold) (ledger asset : List ℕ) (amount : ℕ) (rows : List Row)
        (entries : List Entry) (q : ℕ) → IsDeal deal → IsSpellable deal →
        HasGiven deal ledger asset amount rows entries q →
        IsHistory ledger rows (entries ++ return_entry deal ledger asset amount q ∷ []) }
    ensures lost { (deal : DealTold) (ledger asset : List ℕ) (amount : ℕ) (rows : List Row)
        (entries : List Entry) (q : ℕ) → IsDeal deal → IsSpellable deal →
        HasGiven deal ledger asset amount rows entries q →
        payout_of (book_of rows (entries ++ return_entry deal ledger asset amount q ∷ [])) deal.id
        Commit (account_of deal.parties 0) asset < due_of deal.steps 0 ledger asset }
{
    compliant_front();
    histories_grow();
}
