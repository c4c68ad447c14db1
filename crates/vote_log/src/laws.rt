//! Laws of logs. Each is the contract of an empty function.

ghost use Rattle.std.specs.Prelude.{◌≡◌, ◌↔◌, ◌≢◌, ◌<◌, ◌≤◌, ◌+◌, ◌++◌, ◌∷◌, [], ℕ, List, Some, None, IsSome, length};
ghost use Rattle.std.specs.List.{AllByRecursion};
ghost use Rattle.dh_base.specs.declared.id.Id.{Id};
ghost use Rattle.dh_base.specs.declared.outcome.Outcome.{Outcome};
ghost use Rattle.dh_base.specs.Formats.{TakesWhatIsSpelled, SpelledBy};
ghost use Rattle.vote_log.specs.Entry.{Entry};
ghost use Rattle.vote_log.specs.RecordTexts.{IsRecord, record_text, record_from};
ghost use Rattle.vote_log.specs.Heads.{HaveNoCollision, head_after, head_texts};
ghost use Rattle.vote_log.specs.Deciding.{outcome_of};
ghost use Rattle.vote_log.specs.Places.{HoldsAt, IsFirstStart, IsDecisive, IsFirstDecisive};
ghost use Rattle.vote_log.specs.Owed.{owed_of};
ghost use Rattle.vote_log.specs.Admission.{IsLog, add_refusal};
ghost use Rattle.vote_log.specs.declared.decision.Decision.{Decision};
ghost use Rattle.vote_log.specs.declared.kind.Kind.TheVariants.{Start, Abort};
ghost use Rattle.vote_log.specs.declared.log_fault.LogFault.TheVariants.{LogFull};

/// An outcome of a log is the outcome of every log that it begins.
pub fn outcome_stays()
    ensures { (log more : List Entry) (deal : Id) (decision : Decision) →
        outcome_of log deal ≡ Some decision → outcome_of (log ++ more) deal ≡ Some decision }
{}

/// Where an abort by an index of the deal stands after its first start, the deal is decided.
pub fn abort_decides()
    ensures { (log : List Entry) (deal : Id) (start parties place index : ℕ) →
        IsFirstStart log deal start parties → start < place → HoldsAt log place Abort index deal →
        index < parties → IsSome (outcome_of log deal) }
{}

/// The outcome is that of the first decisive place, and there is none where no place is decisive.
pub fn first_decisive()
    ensures some { (log : List Entry) (deal : Id) (place : ℕ) (outcome : Outcome) →
        (outcome_of log deal ≡ Some (record { outcome = outcome; at = place }))
        ↔ IsFirstDecisive log deal place outcome }
    ensures none { (log : List Entry) (deal : Id) → (outcome_of log deal ≡ None) ↔
        ((place : ℕ) (outcome : Outcome) → IsDecisive log deal place outcome → ⊥) }
{}

/// A log has room for all votes that are owed, and no vote finds it full.
pub fn votes_fit()
    ensures room { (log : List Entry) (limit : ℕ) →
        IsLog log limit → length log + owed_of log ≤ limit }
    ensures never_full { (log : List Entry) (limit : ℕ) (vote : Entry) (len owed : ℕ) →
        vote.kind ≢ Start → add_refusal log limit vote ≢ Some (LogFull len owed) }
    ensures fits { (log : List Entry) (limit : ℕ) (vote : Entry) → IsLog log limit →
        vote.kind ≢ Start → add_refusal log limit vote ≡ None → length log < limit }
{}

/// A record is taken at a place exactly where its text stands there, and no two records have one
/// text.
pub fn records_taken()
    ensures taken { TakesWhatIsSpelled record_from (SpelledBy IsRecord record_text) }
    ensures one { (rec other : Entry) → IsRecord rec → IsRecord other
        → record_text rec ≡ record_text other → rec ≡ other }
{}

/// Heads that are equal, of logs of one length, come from one log of one house, where no two texts
/// that are hashed for them have one digest.
pub fn heads_determine()
    ensures { (house other : Id) (log more : List Entry) → AllByRecursion IsRecord log
        → AllByRecursion IsRecord more
        → HaveNoCollision (head_texts house log ++ head_texts other more)
        → length log ≡ length more → head_after house log ≡ head_after other more →
        (house ≡ other) × (log ≡ more) }
{}
