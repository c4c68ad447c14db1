//! Whether the parties of a deal reach each other along its steps.

ghost use Rattle.std.specs.Prelude.{◌≡◌, ◌≤◌, length, IfSome, IfNone};
ghost use Rattle.std.specs.List.{AllByRecursion};
ghost use Rattle.dh_base.specs.Limits.{most_parties};
ghost use Rattle.deal_core.specs.Deals.{IsConnected, IsFirstApart};
ghost use Rattle.deal_core.specs.Kept.{IsStepOf};
ghost use Rattle.deal_core.specs.Marks.{near, far, IsNext, IsClosed, AreMarks};

use crate::party::Party;
use crate::step::Step;
use dh_base::MOST_PARTIES;

/// Which walks are followed: those from party 0, or those to it.
#[derive(Clone, Copy)]
pub enum Way {
    From,
    To,
}

/// The party at the step's end that is nearer to party 0 along the walk.
fn near(way: Way, step: &Step) -> u16
    ensures { result ≡ near way step.now }
{
    match way {
        Way::From => step.from,
        Way::To => step.to,
    }
}

/// The party at the step's other end.
fn far(way: Way, step: &Step) -> u16
    ensures { result ≡ far way step.now }
{
    match way {
        Way::From => step.to,
        Way::To => step.from,
    }
}

/// A party without a mark to which a step leads from one with a mark.
fn next_party(steps: &[Step], marks: &[bool; MOST_PARTIES], way: Way) -> Option<usize>
    requires { AllByRecursion (IsStepOf most_parties) steps.now }
    ensures some { IfSome result (IsNext way steps.now marks.now) }
    ensures none { IfNone result (IsClosed way steps.now marks.now) }
{
    for step in steps {
        let end = far(way, step) as usize;
        if marks[near(way, step) as usize] && !marks[end] {
            return Some(end);
        }
    }
    None
}

/// Marks for the parties that are reached from party 0, or that reach it.
fn marks(steps: &[Step], way: Way) -> [bool; MOST_PARTIES]
    requires { AllByRecursion (IsStepOf most_parties) steps.now }
    ensures { AreMarks way steps.now result }
{
    let mut marks = [false; MOST_PARTIES];
    marks[0] = true;
    while let Some(party) = next_party(steps, &marks, way) {
        marks[party] = true;
    }
    marks
}

/// The first party that isn't reached from party 0 or doesn't reach it.
pub(crate) fn first_apart(steps: &[Step], parties: &[Party]) -> Option<u16>
    requires between { AllByRecursion (IsStepOf (length parties.now)) steps.now }
    requires few { length parties.now ≤ most_parties }
    ensures some { IfSome result (IsFirstApart steps.now (length parties.now)) }
    ensures none { IfNone result (IsConnected steps.now (length parties.now)) }
{
    let reached = marks(steps, Way::From);
    let reaching = marks(steps, Way::To);
    for party in 0..parties.len() {
        if !reached[party] || !reaching[party] {
            return Some(party as u16);
        }
    }
    None
}
