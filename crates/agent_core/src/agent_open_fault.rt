//! Why an agent is not opened.

use dh_base::refusal::{hash, write_refusal};
use dh_base::{Id, NoMemory, Refusal, Telling};
use keeper_core::{KeepFault, StoreFault};
use std::fmt;

/// Why an agent is not opened.
#[derive(Clone, Copy, Debug, PartialEq, Eq)]
pub enum AgentOpenFault {
    /// The keeper has another agent, with that identity.
    OtherAgent { kept: Id },
    /// The keeper failed, a row has not its form, or an allocation was refused.
    Store { fault: StoreFault },
}

impl From<StoreFault> for AgentOpenFault {
    ghost use Rattle.std.specs.Prelude.{◌≡◌};
    ghost use Rattle.agent_core.specs.declared.agent_open_fault.AgentOpenFault.TheVariants.{Store};

    ghost from_gives = { λ fault given. given ≡ Store fault };

    fn from(fault: StoreFault) -> AgentOpenFault {
        AgentOpenFault::Store { fault }
    }
}

impl From<KeepFault> for AgentOpenFault {
    ghost use Rattle.std.specs.Prelude.{◌≡◌};
    ghost use Rattle.keeper_core.specs.StoreFaults.{store_fault_of};
    ghost use Rattle.agent_core.specs.declared.agent_open_fault.AgentOpenFault.TheVariants.{Store};

    ghost from_gives = { λ fault given. given ≡ Store (store_fault_of fault) };

    fn from(fault: KeepFault) -> AgentOpenFault {
        AgentOpenFault::from(StoreFault::from(fault))
    }
}

impl From<NoMemory> for AgentOpenFault {
    ghost use Rattle.std.specs.Prelude.{◌≡◌};
    ghost use Rattle.keeper_core.specs.declared.store_fault.StoreFault.TheVariants.{NoMemory};
    ghost use Rattle.agent_core.specs.declared.agent_open_fault.AgentOpenFault.TheVariants.{Store};

    ghost from_gives = { λ _ fault. fault ≡ Store NoMemory };

    fn from(_error: NoMemory) -> AgentOpenFault {
        AgentOpenFault::from(StoreFault::NoMemory)
    }
}

impl Refusal for AgentOpenFault {
    ghost use Rattle.agent_core.specs.AgentOpenFaults.{agent_open_fault_told};

    ghost told = { agent_open_fault_told };

    fn telling(&self, level: usize) -> Option<Telling> {
        match self {
            AgentOpenFault::OtherAgent { kept } => {
                Telling::at(level, 1, "OtherAgent", &[hash("kept", *kept)])
            }
            AgentOpenFault::Store { fault } => Telling::holding(level, 2, "Store", &[], fault),
        }
    }
}

impl fmt::Display for AgentOpenFault {
    ghost use Rattle.std.specs.Prelude.{Some};
    ghost use Rattle.dh_base.specs.Refusals.{refusal_text};
    ghost use Rattle.agent_core.specs.AgentOpenFaults.{agent_open_fault_told};

    ghost output = { λ fault. Some (refusal_text (agent_open_fault_told fault)) };

    fn fmt<W: fmt::Write>(&self, f: &mut fmt::Formatter<W>) -> fmt::Result {
        write_refusal(self, f)
    }
}
