//! Laws of what logs take.

ghost use Rattle.std.specs.Prelude.{◌≡◌, ◌≢◌, ◌≤◌, ◌+◌, ℕ, List, Some, Result, length};
ghost use Rattle.dh_base.specs.declared.id.Id.{Id};
ghost use Rattle.dh_base.specs.declared.outcome.Outcome.{Outcome};
ghost use Rattle.key_ring.specs.declared.envelope.Envelope.{Envelope};
ghost use Rattle.vote_log.specs.declared.log_fault.LogFault.TheVariants.{LogFull, NotAParty};
ghost use Rattle.vote_log.specs.Admission.{IsLog};
ghost use Rattle.vote_log.specs.Entry.{Entry};
ghost use Rattle.vote_log.specs.Owed.{owed_of};
ghost use Rattle.deal_log.specs.declared.admit_fault.AdmitFault.{AdmitFault};
ghost use Rattle.deal_log.specs.declared.admit_fault.AdmitFault.TheVariants.{Refused};
ghost use Rattle.deal_log.specs.declared.posting.Posting.{Posting};
ghost use Rattle.deal_log.specs.declared.posting.Posting.TheVariants.{Vote};
ghost use Rattle.deal_log.specs.Postings.{IsPosted, AreOneReading};
ghost use Rattle.deal_log.specs.Rebuilding.{IsFirstRefused};
ghost use Rattle.deal_log.specs.VoteLogs.{VoteLogTold, IsVoteLog, most_records, refusal_of};

use vote_log::laws::votes_fit;

/// An envelope asks one thing of a log, or asks nothing for one reason, unless memory runs out.
pub fn one_posting()
    ensures { (env : Envelope) (one other : Result Posting AdmitFault) → IsPosted env one
        → IsPosted env other → AreOneReading one other }
{}

/// A log has room for every vote that it owes, and no vote finds it full. A vote that is refused
/// since the account is not the party of that index is refused by the name of that account.
pub fn votes_taken()
    ensures room { (log : VoteLogTold) → IsVoteLog log
        → length log.entries + owed_of log.entries ≤ most_records }
    ensures never_full { (log : VoteLogTold) (account : Id) (choice : Outcome) (index : ℕ)
        (deal : Id) (len owed : ℕ) →
        refusal_of log (Vote account choice index deal) ≢ Some (Refused (LogFull len owed)) }
    ensures named { (log : VoteLogTold) (account : Id) (choice : Outcome) (index : ℕ) (deal : Id)
        (named : Id) → IsVoteLog log →
        refusal_of log (Vote account choice index deal) ≡ Some (Refused (NotAParty named))
        → named ≡ account }
{
    votes_fit();
}

/// Records either make a log, or have one that is the first at fault.
pub fn one_refused()
    ensures none { (recs : List Entry) (at : ℕ) → IsFirstRefused recs at
        → IsLog recs most_records → ⊥ }
    ensures one { (recs : List Entry) (at other : ℕ) → IsFirstRefused recs at
        → IsFirstRefused recs other → at ≡ other }
{}
