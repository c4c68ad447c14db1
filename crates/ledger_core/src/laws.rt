//! Laws of ledgers.

ghost use Rattle.std.specs.Prelude.{ℕ, List};
ghost use Rattle.dh_base.specs.declared.id.Id.{Id};
ghost use Rattle.escrow_book.specs.Conserved.{AreItsAccounts, IsConserved};
ghost use Rattle.keeper_core.specs.Tables.{Tables};
ghost use Rattle.ledger_rows.specs.declared.entry.Entry.{Entry};
ghost use Rattle.ledger_rows.specs.Entries.{book_of};
ghost use Rattle.ledger_acts.specs.LedgerStep.{Opened};
ghost use Rattle.ledger_acts.specs.LedgerState.{IsState};

/// At each history that a ledger's tables stand for, what all accounts can spend and what is owned
/// in unsettled deals is together what there was at the opening.
pub fn assets_conserved()
    ensures { (opened : Opened) (tables : Tables) (entries : List Entry) (accounts : List Id)
        (asset : List ℕ) → IsState opened tables entries
        → AreItsAccounts (book_of opened.rows entries) accounts
        → IsConserved (book_of opened.rows entries) accounts asset }
{
    escrow_book::laws::conserved()
}
