//! What a command answers to an input.

ghost use Rattle.std.specs.Prelude.{◌≡◌, IfOk};
ghost use Rattle.deal_desk.specs.Answers.{refused_line, refused_deal_line};
ghost use Rattle.deal_desk.specs.declared.ending.Ending.TheVariants.{Done, Refused, RefusedDeal};

use crate::ending::Ending;
use deal_core::DealFault;
use dh_base::{List, NoMemory};
use script_lines::{RefusedLine, ScriptRule};
use std::alloc::Global;
use std::fmt::Write;

/// What a command answers to the input that it read: how it ends once the text is written, and the
/// text.
#[derive(Drop)]
pub struct Answer {
    pub ending: Ending,
    pub text: List<u8>,
}

impl Answer {
    /// The command did all its work, and this is its text.
    pub fn done(text: List<u8>) -> Answer
        ensures { result ≡ record { ending = Done; text = text } }
    {
        Answer {
            ending: Ending::Done,
            text,
        }
    }

    /// The line of the input breaks the rule.
    pub fn refused(alloc: Global, line: u32, rule: ScriptRule) -> Result<Answer, NoMemory>
        ensures { IfOk result (λ answer. answer ≡ record {
          ending = Refused line rule;
          text = refused_line line rule;
        }) }
    {
        let refused = RefusedLine { line, rule };
        let mut text = String::new(alloc);
        write!(text, "{refused}\n")?;
        Ok(Answer {
            ending: Ending::Refused { line, rule },
            text: List::from_vec(text.into_bytes()),
        })
    }

    /// The input is no deal's text, for this fault.
    pub fn refused_deal(alloc: Global, fault: DealFault) -> Result<Answer, NoMemory>
        ensures { IfOk result (λ answer. answer ≡ record {
          ending = RefusedDeal fault;
          text = refused_deal_line fault;
        }) }
    {
        let mut text = String::new(alloc);
        write!(text, "refused {fault}\n")?;
        Ok(Answer {
            ending: Ending::RefusedDeal { fault },
            text: List::from_vec(text.into_bytes()),
        })
    }
}
