//! Which ledger it is.

use dh_base::{Id, Name};

/// Which ledger it is, as acts name it: by its name, and by the id of its house.
#[derive(Clone, Copy)]
pub struct LedgerId {
    pub name: Name,
    pub house: Id,
}
