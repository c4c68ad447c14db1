//! Laws of the acts of a ledger.

ghost use Rattle.ledger_acts.specs.FewOpenDeals.{FewStayOpen};
ghost use Rattle.ledger_acts.specs.Runs.{OneMessageAKey};

/// An account and a key number have one accepted message at most, whatever list of envelopes a
/// ledger is asked, and the same reply each time.
pub fn one_message_a_key()
    ensures { OneMessageAKey }
{}

/// No account has more than 64 open deals on a ledger, whatever the ledger is asked.
pub fn few_stay_open()
    ensures { FewStayOpen }
{}
