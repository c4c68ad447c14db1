//! Laws of the rows of a ledger.

ghost use Rattle.ledger_rows.specs.ActChanges.{PaymentStands, EscrowStands, TransferStands, RegistrationStands};
ghost use Rattle.ledger_rows.specs.OpenDeals.{OpenDealsCounted};
ghost use Rattle.ledger_rows.specs.Scanning.{SettledCounted};
ghost use Rattle.ledger_rows.specs.RowKeys.{FreeKeysRead, HoldKeysRead, MovesKeysRead, UsedKeysRead};
ghost use Rattle.ledger_rows.specs.RowValues.{StandsForSpelled, free_in, FreeFits, free_text, registration_in, RegistrationFits, registration_text, hold_in, HoldFits, hold_text, moves_in, MovesFit, moves_text, used_in, UsedFits, used_text, entry_in, EntryFits, entry_text};

/// Bytes stand for the value of a row exactly where they spell it.
pub fn values_read()
    ensures free { StandsForSpelled free_in FreeFits free_text }
    ensures deal { StandsForSpelled registration_in RegistrationFits registration_text }
    ensures hold { StandsForSpelled hold_in HoldFits hold_text }
    ensures moves { StandsForSpelled moves_in MovesFit moves_text }
    ensures used { StandsForSpelled used_in UsedFits used_text }
    ensures entry { StandsForSpelled entry_in EntryFits entry_text }
{}

/// A key of a row is read as what it is spelled from, and as nothing else.
pub fn keys_read()
    ensures free { FreeKeysRead }
    ensures hold { HoldKeysRead }
    ensures moves { MovesKeysRead }
    ensures used { UsedKeysRead }
{}

/// Tables that stand for a history stand for it with an accepted payment behind it, once the
/// changes of the payment are made.
pub fn payment_stands()
    ensures { PaymentStands }
{}

/// The same of an accepted escrow.
pub fn escrow_stands()
    ensures { EscrowStands }
{}

/// The same of an accepted transfer.
pub fn transfer_stands()
    ensures { TransferStands }
{}

/// The same of an accepted registration, whether the deal was registered before or not.
pub fn registration_stands()
    ensures { RegistrationStands }
{}

/// As many deals of an account are open by the rows of a told table as by the history that the
/// tables stand for.
pub fn open_deals_counted()
    ensures { OpenDealsCounted }
{}

/// As many deals have ended by the rows of a told table as by the history that the tables stand
/// for.
pub fn settled_counted()
    ensures { SettledCounted }
{}
