//! A ledger over a database.

ghost use Rattle.std.specs.Prelude.{◌≡◌, ◌<◌, ◌^◌, length, IfErr, IfOk, OnErr};
ghost use Rattle.std.specs.Result.{IsErr};
ghost use Rattle.cert_core.specs.Sets.{id_of_set};
ghost use Rattle.keeper_core.specs.Knowing.{FailsNext};
ghost use Rattle.ledger_acts.specs.Steps.{SubmitsByRows};
ghost use Rattle.ledger_core.specs.Openings.{opened_by};
ghost use Rattle.ledger_core.specs.Opens.{OpensByRows, OpensKept, OpensEmpty, OpenCause, counts_of, kept_by};
ghost use Rattle.ledger_core.specs.Submits.{SubmitsFrom, number_in};
ghost use Rattle.signer_sql.specs.Databases.{known_of};

use keeper_sql::SqlKeeper;
use key_ring::Envelope;
use ledger_core::{ActReply, Ledger, LedgerFault, Opening, Refused};
use sqlite::Alter;
use std::alloc::Global;

/// Opens a ledger over a database. Empty tables are filled by one transaction; other tables must
/// name this opening.
pub fn open<S: Alter>(
    alloc: Global,
    keeper: SqlKeeper<S>,
    opening: &Opening,
) -> Result<Ledger<SqlKeeper<S>>, Refused<SqlKeeper<S>>>
    ensures kept { OpensKept (opened_by opening.now) (counts_of result) (known_of keeper)
        (known_of (kept_by result)) }
    ensures empty { OpensEmpty (opened_by opening.now) (counts_of result) (known_of keeper)
        (known_of (kept_by result)) }
    ensures rows { OpensByRows (opened_by opening.now) (counts_of result) (known_of keeper)
        (known_of (kept_by result)) }
    ensures cause { IfErr result (λ refused. OpenCause (known_of refused.keeper).tables
        refused.fault) }
    ensures named { IfOk result (λ ledger. (ledger.name ≡ opening.now.name)
        × (ledger.house ≡ id_of_set opening.now.genesis)
        × (ledger.genesis ≡ opening.now.genesis)) }
    ensures fails { FailsNext (known_of keeper) → IsErr result }
{
    Ledger::open(alloc, keeper, opening)
}

/// Takes the act of an envelope, which the database has once it is answered.
pub fn submit<S: Alter>(
    ledger: &mut Ledger<SqlKeeper<S>>,
    env: &Envelope,
) -> Result<ActReply, LedgerFault>
    requires { length env.now.message < 2 ^ 32 }
    ensures step { SubmitsFrom ledger.old ledger.new env.now result
        (known_of ledger.old.keeper) (known_of ledger.new.keeper) }
    ensures rows { SubmitsByRows env.now (number_in result)
        (known_of ledger.old.keeper) (known_of ledger.new.keeper) }
    ensures rest { OnErr result (ledger.new ≡ record ledger.old { keeper = ledger.new.keeper }) }
    ensures fails { FailsNext (known_of ledger.old.keeper) → IsErr result }
{
    ledger.submit(env)
}
