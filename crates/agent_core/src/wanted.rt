//! Which text of a joined deal an agent signs.

use dh_base::Outcome;
use joined_deals::JoinedDeal;

/// Which text of a joined deal is wanted.
#[derive(Clone, Copy)]
pub(crate) enum Wanted {
    /// That of the act of the plan at this place.
    Act(usize),
    Start,
    Vote(Outcome),
}

impl Wanted {
    ghost use Rattle.std.specs.Prelude.{◌≡◌, ◌≤◌, IfSome, length};
    ghost use Rattle.std.specs.Option.{option_copied};
    ghost use Rattle.joined_deals.specs.TextSizes.{most_text};
    ghost use Rattle.agent_core.specs.WantedTexts.{wanted_text};

    /// The text, if the plan has that act.
    pub(crate) fn text_in<'a>(self, joined: &'a JoinedDeal) -> Option<&'a [u8]>
        ensures text { option_copied result ≡ wanted_text self joined.now }
        ensures short { IfSome result (λ text. length text.now ≤ most_text) }
    {
        match self {
            Wanted::Act(k) => joined.act_text(k),
            Wanted::Start => Some(joined.start_text()),
            Wanted::Vote(choice) => Some(joined.vote_text(choice)),
        }
    }
}
