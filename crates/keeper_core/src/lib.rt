//! Keepers: what a node keeps, so that it is there when the node is opened again. A keeper is one
//! finite map from a table and a key to bytes. A batch of changes is committed as a whole or not at
//! all.
//!
//! - `arm`: the ways in which a keeper in memory fails or stops where a test wants it to
//! - `batch`, `change`: the changes that a commit makes
//! - `keep_fault`: what a keeper's call refuses
//! - `keeper`: the trait of keepers
//! - `laws`: what holds of every batch
//! - `mem_keeper`: a keeper in memory, over `cells` and `table`
//! - `mem_store`: a store of keepers in memory
//! - `row`: a row of a table
//! - `store`: the trait of stores, from which keepers are taken by name
//! - `store_fault`: what a call over kept rows refuses
#![tactic(auto)]

pub mod arm;
pub mod batch;
mod cells;
pub mod change;
pub mod keep_fault;
pub mod keeper;
pub mod laws;
pub mod mem_keeper;
pub mod mem_store;
pub mod row;
pub mod store;
pub mod store_fault;
mod table;

pub use arm::Arm;
pub use batch::Batch;
pub use change::Change;
pub use keep_fault::KeepFault;
pub use keeper::Keeper;
pub use mem_keeper::MemKeeper;
pub use mem_store::MemStore;
pub use row::Row;
pub use store::Store;
pub use store_fault::StoreFault;
