//! Laws of deals whose parties comply. Each is the contract of an empty function.

ghost use Rattle.std.specs.Prelude.{◌≡◌, ◌+◌, ◌-◌, ◌<◌, ℕ, List, None, Some, length};
ghost use Rattle.std.specs.List.{Contains};
ghost use Rattle.dh_base.specs.declared.id.Id.{Id};
ghost use Rattle.dh_base.specs.declared.outcome.Outcome.TheVariants.{Commit};
ghost use Rattle.act_text.specs.declared.statement.Statement.{Statement};
ghost use Rattle.deal_core.specs.Deals.{DealTold};
ghost use Rattle.deal_core.specs.DealText.{IsSpellable};
ghost use Rattle.deal_core.specs.Kept.{IsDeal};
ghost use Rattle.deal_core.specs.declared.step.Step.{Step};
ghost use Rattle.clear_core.specs.Clearing.{need_of, due_of, incoming, outgoing, turns_of};
ghost use Rattle.clear_core.specs.Plans.{plan_of};
ghost use Rattle.clear_core.specs.declared.plan_act.PlanAct.TheVariants.{Escrow, Transfer};
ghost use Rattle.escrow_book.specs.Opening.{Row};
ghost use Rattle.escrow_book.specs.History.{if_abort_of, if_commit_of, moves_of, settlement_of};
ghost use Rattle.ledger_rows.specs.declared.entry.Entry.{Entry};
ghost use Rattle.ledger_rows.specs.Entries.{book_of};
ghost use Rattle.ledger_history.specs.Histories.{IsHistory};
ghost use Rattle.vote_log.specs.Entry.{Entry as Rec};
ghost use Rattle.vote_log.specs.Deciding.{outcome_of};
ghost use Rattle.joined_deals.specs.DealTexts.{JoinedTold, account_of};
ghost use Rattle.joined_deals.specs.Validated.{IsValidated};
ghost use Rattle.compliant_deals.specs.Parts.{PartyAct, act_by, acts_on};
ghost use Rattle.compliant_deals.specs.Complying.{ComplyTo, Comply, ComplyOnEach};
ghost use Rattle.compliant_deals.specs.Seeing.{HasHeardEach, HasSignedPlan};
ghost use Rattle.compliant_deals.specs.CommitLogs.{HoldsAllCommits, whole_log};

use vote_log::laws::first_decisive;

/// What is done on a ledger when all parties do their parts is what their plans have there: the
/// registration, each escrow and each transfer, and nothing else.
pub fn plans_are_done()
    ensures planned { (deal : DealTold) (ledger : List ℕ) (registrant : ℕ) (done : PartyAct) →
        Contains (acts_on deal ledger registrant deal.steps) done →
        Contains (plan_of deal.steps done.party) done.act }
    ensures escrows { (deal : DealTold) (ledger : List ℕ) (registrant party : ℕ) (asset : List ℕ)
        (amount : ℕ) → party < length deal.parties →
        Contains (plan_of deal.steps party) (Escrow ledger asset amount) →
        Contains (acts_on deal ledger registrant deal.steps)
        (act_by party (Escrow ledger asset amount)) }
    ensures transfers { (deal : DealTold) (ledger : List ℕ) (registrant party turn to : ℕ)
        (asset : List ℕ) (amount : ℕ) →
        Contains (plan_of deal.steps party) (Transfer ledger turn to asset amount) →
        Contains (acts_on deal ledger registrant deal.steps)
        (act_by party (Transfer ledger turn to asset amount)) }
{}

/// Where all parties do their parts up to the end of some first steps, the ledger accepts each act,
/// the deal is open, and each party owns what it needed and received, less what it passed on.
pub fn compliant_front()
    ensures accepted { (deal : DealTold) (front : List Step) (ledger : List ℕ) (rows : List Row)
        (entries : List Entry) → IsDeal deal → IsSpellable deal →
        ComplyTo deal front ledger rows entries → IsHistory ledger rows entries }
    ensures running { (deal : DealTold) (front : List Step) (ledger : List ℕ) (rows : List Row)
        (entries : List Entry) → IsDeal deal → IsSpellable deal →
        ComplyTo deal front ledger rows entries →
        settlement_of (book_of rows entries) deal.id ≡ None }
    ensures put_up { (deal : DealTold) (front : List Step) (ledger : List ℕ) (rows : List Row)
        (entries : List Entry) (party : ℕ) (asset : List ℕ) → IsDeal deal → IsSpellable deal →
        ComplyTo deal front ledger rows entries → party < length deal.parties →
        if_abort_of (book_of rows entries) deal.id (account_of deal.parties party) asset
        ≡ need_of deal.steps party ledger asset }
    ensures owned { (deal : DealTold) (front : List Step) (ledger : List ℕ) (rows : List Row)
        (entries : List Entry) (party : ℕ) (asset : List ℕ) → IsDeal deal → IsSpellable deal →
        ComplyTo deal front ledger rows entries → party < length deal.parties →
        if_commit_of (book_of rows entries) deal.id (account_of deal.parties party) asset
        ≡ need_of deal.steps party ledger asset + incoming front party ledger asset
        - outgoing front party ledger asset }
    ensures moved { (deal : DealTold) (front : List Step) (ledger : List ℕ) (rows : List Row)
        (entries : List Entry) (party : ℕ) → IsDeal deal → IsSpellable deal →
        ComplyTo deal front ledger rows entries → party < length deal.parties →
        moves_of (book_of rows entries) deal.id (account_of deal.parties party)
        ≡ turns_of front party ledger }
{}

/// A log that holds the start of a deal, a commit of each party and no abort decides it by commit.
pub fn all_commits_decide()
    ensures { (log : List Rec) (deal : Id) (parties : ℕ) → 0 < parties →
        HoldsAllCommits log deal parties →
        (at : ℕ) × (outcome_of log deal ≡ Some (record { outcome = Commit; at = at })) }
{
    first_decisive();
}

/// A compliant deal commits. Where all parties do their parts, on each ledger over an opening that
/// covers what they need, each act is accepted; if the deal commits, each owns its due; each finds
/// the deal validated by what the ledgers say at the end; and a log of the start and all commits
/// decides it by commit.
pub fn compliant_deal()
    ensures accepted { (deal : DealTold) (ledger : List ℕ) (rows : List Row)
        (entries : List Entry) → IsDeal deal → IsSpellable deal →
        Comply deal ledger rows entries → IsHistory ledger rows entries }
    ensures owned { (deal : DealTold) (ledger : List ℕ) (rows : List Row) (entries : List Entry)
        (party : ℕ) (asset : List ℕ) → IsDeal deal → IsSpellable deal →
        Comply deal ledger rows entries → party < length deal.parties →
        if_commit_of (book_of rows entries) deal.id (account_of deal.parties party) asset
        ≡ due_of deal.steps party ledger asset }
    ensures validated { (joined : JoinedTold) (signed : List (List ℕ)) (heard : List Statement)
        (rows : List ℕ → List Row) (entries : List ℕ → List Entry) → IsDeal joined.deal →
        IsSpellable joined.deal → joined.index < length joined.deal.parties →
        ComplyOnEach joined.deal rows entries → HasSignedPlan signed joined →
        HasHeardEach heard joined rows entries → IsValidated signed heard joined }
    ensures decided { (deal : DealTold) → IsDeal deal →
        outcome_of (whole_log deal.id (length deal.parties)) deal.id
        ≡ Some (record { outcome = Commit; at = length deal.parties }) }
{
    compliant_front();
    first_decisive();
}
