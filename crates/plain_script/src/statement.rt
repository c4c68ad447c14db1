//! What a line of a script says.

use crate::declaration::Declaration;
use crate::event::Event;

/// What a line of a script says that isn't passed over.
#[derive(Drop)]
pub enum Statement {
    /// The head of a plain script.
    Plain,
    /// The head of a script with signatures.
    House,
    Declare(Declaration),
    /// The end of the declarations.
    Begin,
    Happen(Event),
}
