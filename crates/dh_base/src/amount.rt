//! Amounts of assets.

/// The greatest amount of an asset, and the greatest sum of amounts.
pub const GREATEST_AMOUNT: u64 = 9223372036854775807;
