//! What holds of every history that a book reaches.

ghost use Rattle.std.specs.Prelude.{◌≡◌, ◌<◌, ◌≤◌, ◌+◌, ◌↔◌, ℕ, List, Some, None, false, IsTrue};
ghost use Rattle.dh_base.specs.declared.id.Id.{Id};
ghost use Rattle.dh_base.specs.declared.outcome.Outcome.{Outcome};
ghost use Rattle.escrow_book.specs.declared.change.Change.{Change};
ghost use Rattle.escrow_book.specs.declared.change.Change.TheVariants.{Registered, Escrowed, Transferred, Paid, Settled};
ghost use Rattle.escrow_book.specs.History.{History, with_change, with_changes, registration, settlement, parties_of, settlement_of, is_move, moves_of, escrowed, received, given, if_abort_of, if_commit_of, payout_of, paid_to, paid_from, put_up, paid_out, free_of};
ghost use Rattle.escrow_book.specs.Opening.{Row, opening_of, is_good_opening, first_bad_row};
ghost use Rattle.escrow_book.specs.Base.{Carried, carried_parties, carried_outcome, carried_commit, carried_abort, carried_moves, greatest_turn};
ghost use Rattle.escrow_book.specs.Refused.{escrow_refusal, transfer_refusal, pay_refusal, settle_refusal};
ghost use Rattle.escrow_book.specs.Reached.{IsAccepted, IsGrown, IsReached, are_parties, begun, started};
ghost use Rattle.std.specs.List.{sum_by, AllByRecursion};
ghost use Rattle.escrow_book.specs.declared.row.BookRow.{BookRow};
ghost use Rattle.std.specs.Option.{option_map, option_and_then, option_map_or};
ghost use Rattle.escrow_book.specs.declared.known_deal.KnownDeal.{KnownDeal};
ghost use Rattle.escrow_book.specs.declared.row.HoldRow.{HoldRow};
ghost use Rattle.escrow_book.specs.declared.row.MovesRow.{MovesRow};
ghost use Rattle.escrow_book.specs.PartRows.{no_rows, first_fault, are_not_bad, Says, FitsRow, part_of, first_in, free_in, deal_in, hold_in, moves_in};
ghost use Rattle.escrow_book.specs.Part.{SaySameDeal, AgreeOnEscrow, AgreeOnTransfer, AgreeOnPayment, Agree};
ghost use Rattle.escrow_book.specs.Conserved.{NothingIsCut, AreItsAccounts, IsConserved, IsWithinLimits, registrations_of, settlements_of};

/// What went from an account is at most what came to it, in a deal and outside, so no difference is
/// cut at 0.
pub fn nothing_cut()
    ensures { (history : History) → IsReached history → NothingIsCut history }
{}

/// What all accounts can spend and what is owned in unsettled deals is together what there was at
/// the opening, whichever of its two owners each escrowed amount is counted with.
pub fn conserved()
    ensures { (history : History) (accounts : List Id) (asset : List ℕ) → IsReached history
        → AreItsAccounts history accounts
        → IsConserved history accounts asset }
{}

/// Each amount is at most 2^63 - 1, and the transfers of a party at most 2^32 - 1.
pub fn within_limits()
    ensures { (history : History) → IsReached history → IsWithinLimits history }
{}

/// Where a call refuses nothing, the history with the change is reached.
pub fn reached_grows()
    ensures register { (history : History) (deal : Id) (parties : List Id) → IsReached history
        → parties_of history deal ≡ None
        → IsTrue (are_parties parties) → IsReached (with_change history (Registered deal parties)) }
    ensures escrow { (history : History) (deal party : Id) (asset : List ℕ) (amount : ℕ)
        → IsReached history
        → escrow_refusal history deal party asset amount ≡ None
        → IsReached (with_change history (Escrowed deal party asset amount)) }
    ensures transfer { (history : History) (deal from : Id) (turn : ℕ) (to : Id)
        (asset : List ℕ) (amount : ℕ)
        → IsReached history
        → moves_of history deal from < greatest_turn
        → transfer_refusal history deal from turn to asset amount ≡ None
        → IsReached (with_change history (Transferred deal from to asset amount)) }
    ensures pay { (history : History) (from to : Id) (asset : List ℕ) (amount : ℕ)
        → IsReached history
        → pay_refusal history from to asset amount ≡ None
        → IsReached (with_change history (Paid from to asset amount)) }
    ensures settle { (history : History) (deal : Id) (outcome : Outcome) → IsReached history
        → settle_refusal history deal ≡ None
        → IsReached (with_change history (Settled deal outcome)) }
{}

/// A deal is registered once and settled once, and later changes leave its outcome and its payouts.
pub fn settled_once()
    ensures registered { (history : History) (deal : Id) → IsReached history
        → registrations_of history deal ≤ 1 }
    ensures settled { (history : History) (deal : Id) → IsReached history
        → settlements_of history deal ≤ 1 }
    ensures outcome_stays { (history : History) (more : List Change) (deal : Id) (outcome : Outcome)
        → settlement_of history deal ≡ Some outcome
        → settlement_of (with_changes history more) deal ≡ Some outcome }
    ensures payout_stays { (history : History) (more : List Change) (deal party : Id)
        (asset : List ℕ)
        (outcome : Outcome)
        → IsReached (with_changes history more) → settlement_of history deal ≡ Some outcome
        → payout_of (with_changes history more) deal outcome party asset
        ≡ payout_of history deal outcome party asset }
{}

/// What a settlement pays out stands in the free amount behind it: the payout comes to what was
/// free before.
pub fn settlement_pays()
    ensures { (history : History) (deal party : Id) (asset : List ℕ) (outcome : Outcome)
        → IsReached history → settle_refusal history deal ≡ None
        → free_of (with_change history (Settled deal outcome)) party asset
        ≡ free_of history party asset + payout_of history deal outcome party asset }
{}

/// A book that starts with good rows has a reached history, and each accepted change leaves one.
pub fn accepted_grows()
    ensures start { (rows : List Row) → IsTrue (is_good_opening rows) → IsReached (started rows) }
    ensures reached { (history : History) (change : Change) → IsReached history
        → IsAccepted history change
        → IsReached (with_change history change) }
    ensures grown { (history : History) (change : Change) → IsGrown history
        → IsAccepted history change
        → IsGrown (with_change history change) }
{}

/// What a reached history was before its last changes is reached too.
pub fn front_is_reached()
    ensures { (history : History) (more : List Change) → IsReached (with_changes history more)
        → IsReached history }
{}

/// A deal of a reached history has 2 to 16 parties, all different.
pub fn registered_parties()
    ensures { (history : History) (deal : Id) (parties : List Id) → IsReached history
        → parties_of history deal ≡ Some parties
        → IsTrue (are_parties parties) }
{}

/// Where the moves of a party stand still, what it would have on commit doesn't fall.
pub fn commit_stands()
    ensures { (history : History) (more : List Change) (deal party : Id) (asset : List ℕ)
        → moves_of (with_changes history more) deal party ≡ moves_of history deal party
        → if_commit_of history deal party asset
        ≤ if_commit_of (with_changes history more) deal party asset }
{}

/// Rows are good for an opening exactly where no row is the first bad one.
pub fn good_opening_rows()
    ensures { (rows : List Row) → IsTrue (is_good_opening rows) ↔ (first_bad_row rows ≡ None) }
{}

/// A whole book's history is one that a book can have.
pub fn whole_is_grown()
    ensures { (history : History) → IsReached history → IsGrown history }
{}

/// A part that says what the whole book says, of all that a change touches, refuses it exactly as
/// the whole book, and says the same after it.
pub fn part_stands()
    ensures escrow { (part whole : History) (deal party : Id) (asset : List ℕ) (amount : ℕ)
        → AgreeOnEscrow part whole deal party asset
        → escrow_refusal part deal party asset amount
        ≡ escrow_refusal whole deal party asset amount }
    ensures transfer { (part whole : History) (deal from : Id) (turn : ℕ) (to : Id)
        (asset : List ℕ) (amount : ℕ)
        → AgreeOnTransfer part whole deal from to asset
        → transfer_refusal part deal from turn to asset amount
        ≡ transfer_refusal whole deal from turn to asset amount }
    ensures pay { (part whole : History) (from to : Id) (asset : List ℕ) (amount : ℕ)
        → AgreeOnPayment part whole from to asset
        → pay_refusal part from to asset amount ≡ pay_refusal whole from to asset amount }
    ensures settle { (part whole : History) (deal : Id) → SaySameDeal part whole deal
        → settle_refusal part deal ≡ settle_refusal whole deal }
    ensures after { (part whole : History) (change : Change) → IsGrown part → IsGrown whole
        → Agree part whole change → IsAccepted whole change
        → IsAccepted part change
        × Agree (with_change part change) (with_change whole change) change }
{}

/// Before its first change a part says what its rows say.
pub fn part_says_its_rows()
    ensures free { (rows : List Row) (base : Carried) (party : Id) (asset : List ℕ)
        → free_of (begun rows base) party asset ≡ opening_of rows party asset }
    ensures parties { (rows : List Row) (base : Carried) (deal : Id)
        → parties_of (begun rows base) deal ≡ carried_parties base deal }
    ensures settled { (rows : List Row) (base : Carried) (deal : Id)
        → settlement_of (begun rows base) deal ≡ carried_outcome base deal }
    ensures if_commit { (rows : List Row) (base : Carried) (deal party : Id) (asset : List ℕ)
        → if_commit_of (begun rows base) deal party asset ≡ carried_commit base deal party asset }
    ensures if_abort { (rows : List Row) (base : Carried) (deal party : Id) (asset : List ℕ)
        → if_abort_of (begun rows base) deal party asset ≡ carried_abort base deal party asset }
    ensures moves { (rows : List Row) (base : Carried) (deal party : Id)
        → moves_of (begun rows base) deal party ≡ carried_moves base deal party }
{}

/// What a change doesn't touch stays.
pub fn others_stay()
    ensures free { (history : History) (change : Change) (party : Id) (asset : List ℕ)
        → IsGrown history → IsAccepted history change
        → paid_from party asset change + put_up party asset change ≡ 0
        → paid_to party asset change + paid_out (with_change history change) party asset change ≡ 0
        → free_of (with_change history change) party asset ≡ free_of history party asset }
    ensures if_commit { (history : History) (change : Change) (deal party : Id) (asset : List ℕ)
        → escrowed deal party asset change + received deal party asset change ≡ 0
        → given deal party asset change ≡ 0
        → if_commit_of (with_change history change) deal party asset
        ≡ if_commit_of history deal party asset }
    ensures if_abort { (history : History) (change : Change) (deal party : Id) (asset : List ℕ)
        → escrowed deal party asset change ≡ 0
        → if_abort_of (with_change history change) deal party asset
        ≡ if_abort_of history deal party asset }
    ensures moves { (history : History) (change : Change) (deal party : Id)
        → is_move deal party change ≡ false
        → moves_of (with_change history change) deal party ≡ moves_of history deal party }
    ensures parties { (history : History) (change : Change) (deal : Id)
        → registration deal change ≡ None
        → parties_of (with_change history change) deal ≡ parties_of history deal }
    ensures settled { (history : History) (change : Change) (deal : Id)
        → settlement deal change ≡ None
        → settlement_of (with_change history change) deal ≡ settlement_of history deal }
{}

/// Rows that say what a whole book says, and of which none is bad, are taken by a part: they are
/// never too large.
pub fn part_fits()
    ensures { (history : History) (rows : List BookRow) → IsReached history
        → IsTrue (are_not_bad no_rows rows)
        → AllByRecursion (Says history) rows → first_fault no_rows 0 rows ≡ None }
{}

/// Rows without a fault, whose numbers have their widths, make a part that is a history which a
/// book can have.
pub fn part_is_grown()
    ensures { (rows : List BookRow) → AllByRecursion FitsRow rows
        → first_fault no_rows 0 rows ≡ None
        → IsGrown (part_of rows) }
{}

/// What a part says before its first change is what its rows have.
pub fn part_has_its_rows()
    ensures free { (rows : List BookRow) (party : Id) (asset : List ℕ)
        → free_of (part_of rows) party asset ≡ sum_by (free_in party asset) rows }
    ensures parties { (rows : List BookRow) (deal : Id) → parties_of (part_of rows) deal
        ≡ option_map (λ (known : KnownDeal). known.parties) (first_in (deal_in deal) rows) }
    ensures settled { (rows : List BookRow) (deal : Id) → settlement_of (part_of rows) deal
        ≡ option_and_then (λ (known : KnownDeal). known.outcome) (first_in (deal_in deal) rows) }
    ensures if_commit { (rows : List BookRow) (deal party : Id) (asset : List ℕ)
        → if_commit_of (part_of rows) deal party asset
        ≡ option_map_or (λ (row : HoldRow). row.commit)
        (first_in (hold_in deal party asset) rows) 0 }
    ensures if_abort { (rows : List BookRow) (deal party : Id) (asset : List ℕ)
        → if_abort_of (part_of rows) deal party asset
        ≡ option_map_or (λ (row : HoldRow). row.abort)
        (first_in (hold_in deal party asset) rows) 0 }
    ensures moves { (rows : List BookRow) (deal party : Id) → moves_of (part_of rows) deal party
        ≡ option_map_or (λ (row : MovesRow). row.moves) (first_in (moves_in deal party) rows) 0 }
{}
