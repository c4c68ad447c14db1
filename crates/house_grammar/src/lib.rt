//! The lines of house scripts: what each line says, and which words say it. The grammar has every
//! line of a finished house, those too that no program runs yet.
//!
//! - `holder_line`, `declaration`: what a house declares.
//! - `forged_text`, `record_line`, `building`: what its script builds.
//! - `event`: what happens in it.
//! - `house_line`: one line.
//! - `holder`, `said_declaration`, `said_text`, `said_building`, `said_event`, `reading`: reading
//!   it from the line's words.
#![tactic(auto)]

pub mod building;
pub mod declaration;
pub mod event;
pub mod forged_text;
mod holder;
pub mod holder_line;
pub mod house_line;
pub mod laws;
pub mod reading;
pub mod record_line;
mod said_building;
mod said_declaration;
mod said_event;
mod said_text;

pub use building::{Building, TermSide};
pub use declaration::Declaration;
pub use event::{Event, StopSide};
pub use forged_text::ForgedText;
pub use holder_line::{Conduct, KeySize};
pub use house_line::HouseLine;
pub use record_line::RecordLine;
