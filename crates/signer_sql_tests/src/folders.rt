//! A signer over files, and files that another process writes; each test has a folder of its own.

use std::fs;
use std::test::Fail;

/// Makes an empty folder.
pub fn make_folder(rt: &HostRuntime, folder: &str) -> Result<(), Fail> {
    let _ = fs::remove_dir_all(rt, folder);
    fs::create_dir(rt, folder)?;
    Ok(())
}
