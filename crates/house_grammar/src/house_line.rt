//! What a line of a house script says.

use crate::building::Building;
use crate::declaration::Declaration;
use crate::event::Event;

/// What a line of a house script says that isn't passed over.
#[derive(Drop)]
pub enum HouseLine {
    /// The head of the script.
    House,
    Declare(Declaration),
    /// The end of the declarations.
    Begin,
    Build(Building),
    Happen(Event),
}
