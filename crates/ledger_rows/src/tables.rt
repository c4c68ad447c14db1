//! The numbers of a ledger's tables.

/// What accounts can spend.
pub const FREE_TAB: u8 = 2;

/// The registered deals.
pub const DEAL_TAB: u8 = 3;

/// What parties own in deals.
pub const HOLD_TAB: u8 = 4;

/// How many transfers parties have made in deals.
pub const MOVES_TAB: u8 = 5;

/// The keys of accounts that have signed an accepted act.
pub const USED_TAB: u8 = 6;

/// The history.
pub const ENTRY_TAB: u8 = 7;
