//! Whether the parties of a deal reach each other along its steps.

ghost use Rattle.std.specs.Prelude.{◌≡◌, ◌≤◌, length, true};
ghost use Rattle.std.proofs.Math.ListN.{set};
ghost use Rattle.deal_core.specs.Marks.{near, far, is_marked};
ghost use Rattle.house_deals.specs.Connected.{
  marked_by,
  one_round,
  after_rounds,
  first_mark,
  marks_of,
  are_marked,
  is_connected,
};

use deal_core::Step;
use deal_core::reach::Way;
use dh_base::MOST_PARTIES;

/// The party at the step's end that is nearer to party 0 along the walk.
fn near(way: Way, step: &Step) -> u16
    ensures { result ≡ near way step.now }
{
    match way {
        Way::From => step.from,
        Way::To => step.to,
    }
}

/// The party at the step's other end.
fn far(way: Way, step: &Step) -> u16
    ensures { result ≡ far way step.now }
{
    match way {
        Way::From => step.to,
        Way::To => step.from,
    }
}

/// Whether the party has a mark.
fn is_marked(marks: &[bool], party: u16) -> bool
    ensures { result ≡ is_marked marks.now party }
{
    match marks.get(party as usize) {
        Some(mark) => *mark,
        None => false,
    }
}

/// Marks the party.
#[tactic(auto, using(std::proofs::lemmas::List::set_past))]
fn mark(marks: &mut [bool], party: u16)
    ensures { marks.new ≡ set marks.old party true }
{
    if (party as usize) < marks.len() {
        marks[party as usize] = true;
    }
}

/// Marks the step's far end, where its near end has a mark.
fn mark_by(way: Way, marks: &mut [bool], step: &Step)
    ensures { marks.new ≡ marked_by way marks.old step.now }
{
    if is_marked(marks, near(way, step)) {
        mark(marks, far(way, step));
    }
}

/// One round over the steps.
fn spread(way: Way, steps: &[Step], marks: &mut [bool])
    ensures { marks.new ≡ one_round way steps.now marks.old }
{
    for step in steps {
        mark_by(way, marks, step);
    }
}

/// Marks of the parties that are reached from party 0, or that reach it.
fn marks(way: Way, steps: &[Step]) -> [bool; MOST_PARTIES]
    ensures { result ≡ marks_of way steps.now }
{
    let mut marks = [false; MOST_PARTIES];
    marks[0] = true;
    for _round in 0..MOST_PARTIES {
        spread(way, steps, &mut marks);
    }
    marks
}

/// Whether each of the first so many parties has a mark.
fn are_marked(marks: &[bool], parties: usize) -> bool
    requires { parties ≤ length marks.now }
    ensures { result ≡ are_marked marks.now parties }
{
    marks[..parties].iter().all(|mark| *mark)
}

/// Whether of so many parties each is reached from party 0, and reaches it.
pub fn is_connected(steps: &[Step], parties: usize) -> bool
    requires { parties ≤ 16 }
    ensures { result ≡ is_connected steps.now parties }
{
    are_marked(&marks(Way::From, steps), parties) && are_marked(&marks(Way::To, steps), parties)
}
