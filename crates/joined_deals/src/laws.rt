//! What holds of agents, whatever they are called for.

ghost use Rattle.joined_deals.specs.AgentLaws.{StaysSound, ValidatedExactly, CallsAreSteps};

/// Of an agent that begins with nothing, behind every list of steps: the keys suffice; only texts
/// of joined deals are signed, each under one key number; no act of a plan is signed behind a vote
/// of its deal, and no commit behind an abort.
pub fn stays_sound()
    ensures { StaysSound }
{}

/// A deal is validated exactly where nothing of it refuses a commit.
pub fn validated_exactly()
    ensures { ValidatedExactly }
{}

/// What a call changes, where it is not refused, is a step of the agent. So a commit has a validated
/// deal behind it, and no abort.
pub fn calls_are_steps()
    ensures { CallsAreSteps }
{}
