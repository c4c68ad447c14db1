//! Plain scripts as they are read. A plain script declares ledgers, opening rows and deals, and
//! lists what happens to them, without signatures. Reading it answers the first line that breaks a
//! rule, or what is declared and what happens, before any of it happens. The grammar, the rules and
//! which line is refused are stated here, once.
//!
//! - `declaration`, `event`, `statement`, `numbered`: what a line says.
//! - `keyword`, `first_word`, `saying`: reading it from the line's words.
//! - `declarations`: what the lines so far have declared, and the rules of a declaration.
//! - `ids`: the ids that plain parties and deals have in books and logs.
//! - `reader`: the lines so far, and the rule that the next one breaks.
//! - `script`: a whole script.
//! - `laws`: the grammar and the first refused line.
#![tactic(auto)]

pub mod declaration;
pub mod declarations;
pub mod event;
mod first_word;
pub mod ids;
pub mod keyword;
pub mod laws;
pub mod numbered;
mod reader;
mod saying;
pub mod script;
pub mod statement;

pub use declaration::Declaration;
pub use declarations::Declarations;
pub use event::Event;
pub use ids::{plain_id, plain_ids};
pub use numbered::Numbered;
pub use script::{Script, read_script};
pub use statement::Statement;
