//! Acts and statements as texts. An act is what a holder signs: a ledger takes registrations,
//! payments, escrows and transfers, a log of votes takes starts and votes. A statement is what a
//! ledger tells a party of a deal.
//!
//! [`read_act`] and [`write_act`] lead between an act and its one text; [`write_statement`] gives
//! the text of a statement. [`laws`] says that no other bytes are read.
#![tactic(auto)]

pub mod act;
pub mod act_fault;
pub mod act_kind;
pub mod laws;
pub mod office;
pub mod reading;
pub mod statement;
pub mod writing;

pub use act::Act;
pub use act_fault::ActFault;
pub use office::Office;
pub use reading::read_act;
pub use statement::{HeldRow, Statement};
pub use writing::{write_act, write_statement};
