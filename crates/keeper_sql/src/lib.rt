//! The keeper over a database: the rows that a node keeps, in the one table of an SQL database,
//! which is there when the node is opened again.
//!
//! - `adoption`: the table of a database that is there already
//! - `changes`: the changes of a batch, made in one transaction
//! - `reads`: what is read of the table
//! - `sql_keeper`: the keeper
//! - `sql_store`: a store of keepers over files
//! - `statements`: the statements that a keeper runs
#![tactic(auto)]

mod adoption;
mod changes;
mod reads;
pub mod sql_keeper;
pub mod sql_store;
mod statements;

pub use sql_keeper::SqlKeeper;
pub use sql_store::SqlStore;
