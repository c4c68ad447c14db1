//! Callers of any keeper: what they say of it follows from the trait and the relation alone.

ghost use Rattle.std.specs.Prelude.{◌≡◌, [], ◌∷◌, false, Some, IfOk, OnOk};
ghost use Rattle.std.specs.Result.{IsErrOf};
ghost use Rattle.keeper_core.specs.Knowing.{FailsNext, IsUnarmed, LooksAtMost};
ghost use Rattle.keeper_core.specs.Keeping.{AnswersByMap};
ghost use Rattle.keeper_core.specs.Leaving.{Leaves, done, ended, of_keep_fault, of_store_fault, Applies};

use crate::keepers::{are, filled, one_put};
use dh_base::List;
use keeper_core::{Arm, Batch, KeepFault, Keeper, MemKeeper, StoreFault};
use std::alloc::Global;
use std::test::Fail;

/// Reads a cell, commits the batch, and reads the cell again.
pub fn change_seen<K: Keeper>(
    keeper: &mut K,
    tab: u8,
    key: &[u8],
    batch: &Batch,
) -> Result<Option<List<u8>>, KeepFault>
    ensures answers { IfOk result (AnswersByMap (K.known keeper.new).tables tab key.now) }
    ensures leaves { OnOk result (Leaves (batch.now ∷ []) done
        (K.known keeper.old) (K.known keeper.new)) }
    ensures fine { IsUnarmed (K.known keeper.old) → ¬ (IsErrOf result KeepFault.Failed) }
    ensures unarmed { IsUnarmed (K.known keeper.old) → IsUnarmed (K.known keeper.new) }
    ensures stops_after { (K.known keeper.old).coming ≡ Some (Some Arm.StopAfter)
        → (K.known keeper.old).stopped ≡ false → IsErrOf result KeepFault.Failed
        → Applies (K.known keeper.old).tables (batch.now ∷ []) (K.known keeper.new).tables }
    ensures looked { LooksAtMost 2 (K.known keeper.old) (K.known keeper.new) }
{
    let _before = keeper.get(tab, key)?;
    keeper.commit(batch)?;
    keeper.get(tab, key)
}

/// Looks at two cells, refuses where the first is empty, and commits: the shape of a node's call.
#[tactic(auto, using(keeper_core::proofs::Leaving::failed_look, keeper_core::proofs::Leaving::starved_look, keeper_core::proofs::Leaving::failed_look_on, keeper_core::proofs::Leaving::starved_look_on))]
pub fn look_and_commit<K: Keeper>(
    keeper: &mut K,
    tab: u8,
    key: &[u8],
    batch: &Batch,
) -> Result<(), StoreFault>
    ensures leaves { Leaves (batch.now ∷ []) (ended of_store_fault result)
        (K.known keeper.old) (K.known keeper.new) }
    ensures fails { FailsNext (K.known keeper.old) → IsErrOf result StoreFault.Keeper }
    ensures fine { IsUnarmed (K.known keeper.old) → ¬ (IsErrOf result StoreFault.Keeper) }
    ensures looked { LooksAtMost 2 (K.known keeper.old) (K.known keeper.new) }
{
    let first = keeper.get(tab, key)?;
    if first.is_none() {
        return Err(StoreFault::bad_row(tab, key));
    }
    let _second = keeper.get(tab, b"k")?;
    keeper.commit(batch)?;
    Ok(())
}

/// Makes two batches, one after the other, and looks at a cell between them.
#[tactic(auto, using(keeper_core::proofs::Leaving::failed_look, keeper_core::proofs::Leaving::starved_look, keeper_core::proofs::Leaving::failed_first, keeper_core::proofs::Leaving::starved_first, keeper_core::proofs::Leaving::done_next, keeper_core::proofs::Leaving::failed_next, keeper_core::proofs::Leaving::starved_next, keeper_core::proofs::Leaving::done_look))]
pub fn commit_both<K: Keeper>(
    keeper: &mut K,
    tab: u8,
    first: &Batch,
    second: &Batch,
) -> Result<(), KeepFault>
    ensures leaves { Leaves (first.now ∷ second.now ∷ []) (ended of_keep_fault result)
        (K.known keeper.old) (K.known keeper.new) }
    ensures fails { FailsNext (K.known keeper.old) → IsErrOf result KeepFault.Failed }
    ensures looked { LooksAtMost 1 (K.known keeper.old) (K.known keeper.new) }
{
    keeper.commit(first)?;
    let _between = keeper.get(tab, b"k")?;
    keeper.commit(second)?;
    Ok(())
}

/// Makes three changes, and tells whether the first is seen.
fn seen(alloc: Global, keeper: &mut MemKeeper) -> Result<bool, Fail> {
    let batch = one_put(alloc)?;
    let new = change_seen(keeper, 2, b"a", &batch)?;
    commit_both(keeper, 2, &batch, &Batch::new(alloc))?;
    look_and_commit(keeper, 2, b"a", &batch)?;
    Ok(are(&new, b"new"))
}

#[test]
fn a_caller_of_any_keeper_sees_its_change(rt: HostRuntime) -> Result<(), Fail> {
    let mut keeper = filled(rt.alloc())?;
    assert!(rt; seen(rt.alloc(), &mut keeper)?);
    assert!(rt; keeper.looked() == 5);
    Ok(())
}

#[test]
fn a_caller_of_any_keeper_is_told_of_a_stop(rt: HostRuntime) -> Result<(), Fail> {
    let mut keeper = filled(rt.alloc())?;
    let batch = one_put(rt.alloc())?;
    keeper.arm(Arm::StopAfter);
    let told = look_and_commit(&mut keeper, 2, b"a", &batch);
    assert!(rt; told.err() == Some(StoreFault::Keeper) && keeper.has_stopped());
    Ok(())
}
