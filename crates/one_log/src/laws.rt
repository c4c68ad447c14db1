//! Laws of runs. Each is the contract of an empty function.

ghost use Rattle.std.specs.Prelude.{◌≡◌, List, Some};
ghost use Rattle.std.specs.List.{Contains, AllByRecursion};
ghost use Rattle.dh_base.specs.declared.id.Id.{Id};
ghost use Rattle.vote_log.specs.Entry.{Entry};
ghost use Rattle.vote_log.specs.Deciding.{outcome_of};
ghost use Rattle.vote_log.specs.declared.decision.Decision.{Decision};
ghost use Rattle.cert_core.specs.Sets.{SetTold};
ghost use Rattle.claim_core.specs.declared.link.Link.{Link};
ghost use Rattle.one_log.specs.Houses.{House, Chain, Reaches, IsCertified, OneBegins, HasOneLog};
ghost use Rattle.one_log.specs.Moments.{Moment, IsOpening, IsRun, IsGiven, after_all, entered_in};

use vote_log::laws::outcome_stays;

/// Of two certified lists one begins with the other.
pub fn one_log()
    ensures { (w : House) (run : List Moment) (log other : List Entry) →
        IsOpening w → IsRun w run → IsGiven w run →
        IsCertified (after_all run w) log → IsCertified (after_all run w) other →
        OneBegins log other }
{}

/// The sets of one epoch to which delivered chains lead are one set.
pub fn one_set_an_epoch()
    ensures { (w : House) (run : List Moment) (chain more : Chain) (front ahead : List Link)
        (set other : SetTold) → IsOpening w → IsRun w run → IsGiven w run →
        Reaches (after_all run w) chain front set → Reaches (after_all run w) more ahead other →
        set.epoch ≡ other.epoch → set ≡ other }
{}

/// All certified lists begin one list, which is certified, or empty where there is none.
pub fn certified_log()
    ensures { (w : House) (run : List Moment) (lists : List (List Entry)) →
        IsOpening w → IsRun w run → IsGiven w run →
        AllByRecursion (IsCertified (after_all run w)) lists → HasOneLog (after_all run w) lists }
{}

/// Each record of a certified list was entered by a compliant seat.
pub fn certified_records_are_entered()
    ensures { (w : House) (run : List Moment) (log : List Entry) (entry : Entry) →
        IsOpening w → IsRun w run → IsGiven w run → IsCertified (after_all run w) log →
        Contains log entry → Contains (entered_in run) entry }
{}

/// Certified lists that decide a deal decide it alike.
pub fn agreement()
    ensures { (w : House) (run : List Moment) (log other : List Entry) (deal : Id)
        (decision second : Decision) → IsOpening w → IsRun w run → IsGiven w run →
        IsCertified (after_all run w) log → IsCertified (after_all run w) other →
        outcome_of log deal ≡ Some decision → outcome_of other deal ≡ Some second →
        decision ≡ second }
{
    outcome_stays();
}
