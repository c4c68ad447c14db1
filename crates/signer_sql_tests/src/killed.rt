//! A writer that is killed while it commits, and what its file then holds. The writer is a process
//! of its own: this program once more, started with the name of one test.

use crate::folders::make_folder;
use keeper_core::{Batch, KeepFault, Keeper, Store};
use keeper_sql::SqlStore;
use std::alloc::Global;
use std::io::Read;
use std::process::{Abort, Child, Command, Stdio};
use std::test::Fail;
use std::{env, fs};

/// The variable that tells the writer its folder.
const FOLDER: &str = "SIGNER_SQL_FOLDER";

const WRITER: &str = "killed::writes_where_it_is_told_to";

/// The batch of three rows under one number, each in a table of its own.
fn numbered(alloc: Global, number: u32) -> Result<Batch, KeepFault> {
    let mut batch = Batch::new(alloc);
    for tab in 0..3 {
        batch.put(tab, &number.to_be_bytes(), b"kept")?;
    }
    Ok(batch)
}

/// Commits one batch after another to a file, and writes a dot for each that is committed.
fn commit_and_tell(rt: &HostRuntime, folder: &str) -> Result<(), Fail> {
    let mut store = SqlStore::new(rt, folder)?;
    let mut keeper = store.keep("alice")?;
    let begun = u32::try_from(keeper.scan(0)?.len())?;
    for number in begun..u32::MAX {
        keeper.commit(&numbered(rt.alloc(), number)?)?;
        print!(rt; ".")?;
    }
    Ok(())
}

#[test]
fn writes_where_it_is_told_to(rt: HostRuntime) -> Result<(), Fail> {
    match env::var(&rt, FOLDER) {
        Ok(folder) => commit_and_tell(&rt, folder.as_str()),
        Err(_) => Ok(()),
    }
}

/// Starts a writer.
fn start(rt: &HostRuntime, folder: &str) -> Result<Child, Fail> {
    let program = env::current_exe(rt)?;
    let mut command = Command::new(rt.alloc(), program.as_path())?;
    command
        .arg(WRITER)?
        .env(FOLDER, folder)?
        .stdout(Stdio::piped());
    Ok(command.spawn(rt)?)
}

/// Waits until the writer has committed so many batches more.
fn hear(writer: &mut Child, batches: usize) -> Result<(), Fail> {
    if let Some(stdout) = writer.stdout.as_mut() {
        for _ in 0..batches {
            stdout.read_exact(&mut [0])?;
        }
    }
    Ok(())
}

/// Kills the writer. How many batches it has told since it was last heard.
fn kill(rt: &HostRuntime, mut writer: Child) -> Result<usize, Fail> {
    writer.kill()?;
    let told = writer.wait_with_output(rt.alloc())?;
    Ok(told.stdout.iter().filter(|byte| **byte == b'.').count())
}

/// How many batches the file has, each of which is whole.
fn found(rt: &impl Abort, store: &mut SqlStore) -> Result<usize, Fail> {
    let mut keeper = store.keep("alice")?;
    let (rows, second, third) = (keeper.scan(0)?, keeper.scan(1)?, keeper.scan(2)?);
    store.back("alice", keeper);
    assert_eq!(rt; rows.len(), second.len());
    assert_eq!(rt; rows.len(), third.len());
    for (number, row) in (0..u32::MAX).zip(rows.as_slice()) {
        assert_eq!(rt; row.key.as_slice(), number.to_be_bytes().as_slice());
    }
    Ok(rows.len())
}

#[test]
fn no_batch_is_cut_or_lost_where_the_writer_is_killed(rt: HostRuntime) -> Result<(), Fail> {
    let folder = "signer_sql_killed";
    make_folder(&rt, folder)?;
    let mut store = SqlStore::new(&rt, folder)?;
    let mut before = 0;
    for round in 0..10 {
        let mut writer = start(&rt, folder)?;
        hear(&mut writer, 2 * round)?;
        let told = kill(&rt, writer)?.saturating_add(2 * round);
        let there = found(&rt, &mut store)?;
        let written = there.saturating_sub(before);
        assert!(rt;
            told <= written && written.saturating_sub(told) <= 1,
            "at {round}"
        );
        before = there;
    }
    fs::remove_dir_all(&rt, folder)?;
    Ok(())
}

#[test]
fn a_file_that_another_process_holds_is_refused(rt: HostRuntime) -> Result<(), Fail> {
    let folder = "signer_sql_held";
    make_folder(&rt, folder)?;
    let mut store = SqlStore::new(&rt, folder)?;
    let mut writer = start(&rt, folder)?;
    hear(&mut writer, 1)?;
    assert_eq!(rt; store.keep("alice").err(), Some(KeepFault::Failed));
    assert_eq!(rt; store.faults(), 1);
    hear(&mut writer, 2)?;
    let told = kill(&rt, writer)?.saturating_add(3);
    assert!(rt; told <= found(&rt, &mut store)?);
    fs::remove_dir_all(&rt, folder)?;
    Ok(())
}
