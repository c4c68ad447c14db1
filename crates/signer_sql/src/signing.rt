//! A signer over a database.

ghost use Rattle.std.specs.Prelude.{◌≡◌, ◌↔◌, ◌≤◌, ◌+◌, ℕ, [], length, None, Err, IfOk, IfErr, IfSome, OnOk, OnErr};
ghost use Rattle.sqlite.specs.Held.{state};
ghost use Rattle.keeper_core.specs.Tables.{rows_of};
ghost use Rattle.keeper_core.specs.Knowing.{LooksAtMost};
ghost use Rattle.keeper_core.specs.Leaving.{Leaves, ended, of_store_fault};
ghost use Rattle.keeper_core.specs.StoreFaults.{HasCause};
ghost use Rattle.keeper_sql.specs.CellRows.{told_by};
ghost use Rattle.key_ring.specs.Saying.{Says};
ghost use Rattle.key_ring.specs.Signers.{signer_account, key_of, key_for, envelope_by, after_signing, IsSpent};
ghost use Rattle.key_ring.specs.SignFaults.{of_sign_fault, IsRefusedFor};
ghost use Rattle.key_ring.specs.UsedTexts.{IsBacked, IsKept, LacksForm, RowsStay, StandsFor, batches_for};
ghost use Rattle.signer_sql.specs.Databases.{known_of};

use keeper_core::StoreFault;
use keeper_sql::SqlKeeper;
use key_ring::{Envelope, KeySpec, SignFault, Signer};
use sqlite::Alter;
use std::alloc::Global;

/// The signer of the ring of a seed, with the texts that the database has of it.
pub fn load<S: Alter>(
    alloc: Global,
    spec: &KeySpec,
    keeper: &mut SqlKeeper<S>,
) -> Result<Signer, StoreFault>
    ensures ring { IfOk result (λ signer. signer
        ≡ record { spec = spec.now; texts = signer.texts }) }
    ensures texts { IfOk result (λ signer. IfSome (told_by (state S.Store keeper.new.conn))
        (λ tables. StandsFor tables signer.texts)) }
    ensures few { IfOk result (λ signer. length signer.texts ≤ spec.now.size) }
    ensures backed { IfOk result (λ signer. IsBacked (known_of keeper.new) signer.texts) }
    ensures cause { IfErr result (HasCause
        (LacksForm spec.now.size (told_by (state S.Store keeper.new.conn)))
        (told_by (state S.Store keeper.new.conn))) }
    ensures leaves { Leaves [] (ended of_store_fault result) (known_of keeper.old)
        (known_of keeper.new) }
    ensures looked { IfSome (told_by (state S.Store keeper.new.conn))
        (λ tables. LooksAtMost (1 + length (rows_of 8 tables)) (known_of keeper.old)
        (known_of keeper.new)) }
{
    Signer::load(alloc, spec, keeper)
}

/// The envelope in which a key of the ring signs the text, once the database has the text. A text
/// that was signed before gets the same envelope again. `reserve` keys are held back.
pub fn sign<S: Alter>(
    signer: &mut Signer,
    keeper: &mut SqlKeeper<S>,
    text: &[u8],
    reserve: u16,
) -> Result<Envelope, SignFault>
    requires reserve { reserve ≤ signer.old.spec.size }
    requires text { length text.now ≤ 16384 }
    requires backed { IsBacked (known_of keeper.old) signer.old.texts }
    ensures envelope { IfOk result (λ env. env ≡ envelope_by signer.old
        (key_for signer.old text.now) text.now) }
    ensures says { IfOk result (λ env. Says env (signer_account signer.old)
        (key_for signer.old text.now) text.now) }
    ensures kept { OnOk result (IfSome (told_by (state S.Store keeper.new.conn))
        (λ tables. IsKept tables (key_for signer.old text.now) text.now)) }
    ensures signed { OnOk result (signer.new ≡ after_signing signer.old text.now) }
    ensures unchanged { OnErr result (signer.new ≡ signer.old) }
    ensures spent { (used size : ℕ) → (result ≡ Err (SignFault.KeysSpent used size))
        ↔ IsSpent signer.old text.now reserve used size }
    ensures cause { IfErr result (IsRefusedFor signer.old text.now reserve) }
    ensures leaves { Leaves (batches_for signer.old text.now) (ended of_sign_fault result)
        (known_of keeper.old) (known_of keeper.new) }
    ensures no_call { (key_of signer.old text.now ≡ None
        → signer.old.spec.size ≤ length signer.old.texts + reserve) → keeper.new ≡ keeper.old }
    ensures rows_stay { RowsStay (told_by (state S.Store keeper.old.conn))
        (told_by (state S.Store keeper.new.conn)) }
    ensures backed { IsBacked (known_of keeper.new) signer.new.texts }
    ensures looked { keeper.new.looked ≡ keeper.old.looked }
{
    signer.sign(keeper, text, reserve)
}
