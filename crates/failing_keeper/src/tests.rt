//! A keeper of which one call fails.

use crate::failing_keeper::FailingKeeper;
use keeper_core::{Batch, KeepFault, Keeper};
use std::test::Fail;

#[test]
fn the_call_behind_so_many_fails(rt: HostRuntime) -> Result<(), Fail> {
    let alloc = rt.alloc();
    let mut keeper = FailingKeeper::new(alloc);
    let mut batch = Batch::new(alloc);
    batch.put(3, b"key", b"value")?;
    keeper.fail_behind(1);
    assert!(rt; keeper.get(3, b"key")?.is_none());
    assert!(rt; keeper.is_armed());
    assert!(rt; matches!(keeper.commit(&batch), Err(KeepFault::Failed)));
    assert!(rt; !keeper.is_armed());
    assert_eq!(rt; keeper.scan(3)?.as_slice().len(), 0);
    keeper.commit(&batch)?;
    assert_eq!(rt; keeper.scan(3)?.as_slice().len(), 1);
    keeper.fail_behind(0);
    assert!(rt; keeper.scan(3).is_err());
    keeper.fail_behind(0);
    keeper.disarm();
    assert!(rt; keeper.get(3, b"key")?.is_some());
    Ok(())
}
