//! Keepers over real files, each test in a folder of its own.

use super::*;
use keeper_core::Store;
use keeper_sql::SqlStore;
use std::fs;

/// Makes an empty folder.
fn make_folder(rt: &HostRuntime, folder: &str) -> Result<(), Fail> {
    let _ = fs::remove_dir_all(rt, folder);
    fs::create_dir(rt, folder)?;
    Ok(())
}

/// What is asked of the keeper of a name, which then goes back to its store.
#[derive(Clone, Copy)]
enum Ask<'a> {
    /// To keep "kept" at the key of table 2.
    Put(&'a str, &'a [u8]),
    /// The rows of table 2.
    Rows(&'a str),
}

/// A line for the commit of the value at the key.
fn put<K: Keeper>(alloc: Global, keeper: &mut K, key: &[u8], val: &[u8]) -> Result<String, Fail> {
    committed(alloc, keeper, &one_put(alloc, key, val)?)
}

/// The answer of the keeper.
fn answer<K: Keeper>(alloc: Global, keeper: &mut K, ask: &Ask<'_>) -> Result<String, Fail> {
    match ask {
        Ask::Put(_, key) => put(alloc, keeper, key, b"kept"),
        Ask::Rows(_) => rows(alloc, keeper, 2),
    }
}

/// The answer of the store.
fn asked(alloc: Global, store: &mut SqlStore, ask: &Ask<'_>) -> Result<String, Fail> {
    let (Ask::Put(name, _) | Ask::Rows(name)) = ask;
    match store.keep(name) {
        Ok(keeper) => {
            let mut keeper = keeper;
            let told = answer(alloc, &mut keeper, ask);
            store.back(name, keeper);
            told
        }
        Err(fault) => Ok(format!(in alloc; "{fault}\n")?),
    }
}

/// The answers of the store and the count of its faults, a line each.
fn answers(alloc: Global, store: &mut SqlStore, asks: &[Ask<'_>]) -> Result<String, Fail> {
    let mut told = String::new(alloc);
    for ask in asks {
        told.push_str(&asked(alloc, store, ask)?)?;
    }
    told.push_str(&format!(in alloc; "faults {}\n", store.faults())?)?;
    Ok(told)
}

/// The answers of a new store over the folder.
fn course(rt: &HostRuntime, folder: &str, asks: &[Ask<'_>]) -> Result<String, Fail> {
    answers(rt.alloc(), &mut SqlStore::new(rt, folder)?, asks)
}

#[test]
fn a_row_is_found_when_its_name_is_kept_again(rt: HostRuntime) -> Result<(), Fail> {
    let folder = "keeper_sql_kept_again";
    make_folder(&rt, folder)?;
    let first = [
        Ask::Put("alice", b"a"),
        Ask::Put("alice-2", b"b"),
        Ask::Rows("alice"),
    ];
    assert!(rt; course(&rt, folder, &first)?.as_str() == "kept\nkept\na=kept \nfaults 0\n");
    let later = [
        Ask::Put("alice", b"c"),
        Ask::Rows("alice"),
        Ask::Rows("alice-2"),
    ];
    let told = course(&rt, folder, &later)?;
    assert!(rt; told.as_str() == "kept\na=kept c=kept \nb=kept \nfaults 0\n");
    fs::remove_dir_all(&rt, folder)?;
    Ok(())
}

/// Puts into a folder a file that is no database, one whose table has another form, and a folder
/// where a file would be.
fn make_others(rt: &HostRuntime) -> Result<(), Fail> {
    make_folder(rt, "keeper_sql_others")?;
    fs::write(rt, "keeper_sql_others/text.db", b"no database".as_slice())?;
    let mut conn = Connection::open(rt, "keeper_sql_others/notes.db")?;
    conn.execute_batch("CREATE TABLE note(text TEXT) STRICT")?;
    fs::create_dir(rt, "keeper_sql_others/folder.db")?;
    Ok(())
}

/// Whether a new store over the folder refuses the name and counts that once.
fn refuses(rt: &HostRuntime, folder: &str, name: &str) -> Result<bool, Fail> {
    Ok(course(rt, folder, &[Ask::Rows(name)])?.as_str() == "failed\nfaults 1\n")
}

#[test]
fn another_file_is_refused_and_counted_once(rt: HostRuntime) -> Result<(), Fail> {
    make_others(&rt)?;
    for name in ["text", "notes", "folder", "../text", "", "Alice", "a.db"] {
        assert!(rt; refuses(&rt, "keeper_sql_others", name)?, "at {name}");
    }
    let text = fs::read(&rt, "keeper_sql_others/text.db")?;
    assert!(rt; text.as_slice() == b"no database".as_slice());
    fs::remove_dir_all(&rt, "keeper_sql_others")?;
    Ok(())
}

#[test]
fn a_file_in_no_folder_is_refused(rt: HostRuntime) -> Result<(), Fail> {
    assert!(rt; refuses(&rt, "keeper_sql_nowhere", "alice")?);
    Ok(())
}

/// What a keeper answers to a commit, then another store, and then the keeper to one more.
fn held_told<K: Keeper>(
    alloc: Global,
    keeper: &mut K,
    other: &mut SqlStore,
) -> Result<String, Fail> {
    let mut told = put(alloc, keeper, b"a", b"first")?;
    told.push_str(&answers(alloc, other, &[Ask::Rows("alice")])?)?;
    told.push_str(&put(alloc, keeper, b"b", b"second")?)?;
    Ok(told)
}

/// What is answered of a file where one store has a keeper of it and another asks for it.
fn both_told(rt: &HostRuntime, folder: &str, other: &mut SqlStore) -> Result<String, Fail> {
    let mut store = SqlStore::new(rt, folder)?;
    let mut keeper = store.keep("alice")?;
    let told = held_told(rt.alloc(), &mut keeper, other);
    store.back("alice", keeper);
    told
}

#[test]
fn a_second_keeper_of_a_file_is_refused(rt: HostRuntime) -> Result<(), Fail> {
    let folder = "keeper_sql_held";
    make_folder(&rt, folder)?;
    let mut other = SqlStore::new(&rt, folder)?;
    let told = both_told(&rt, folder, &mut other)?;
    assert!(rt; told.as_str() == "kept\nfailed\nfaults 1\nkept\n");
    let told = asked(rt.alloc(), &mut other, &Ask::Rows("alice"))?;
    assert!(rt; told.as_str() == "a=first b=second \n");
    fs::remove_dir_all(&rt, folder)?;
    Ok(())
}

/// What the store answers of a file while it has a keeper that counts 4 faults, and what it counts
/// once that keeper is back.
fn back_told(rt: &HostRuntime, store: &mut SqlStore) -> Result<String, Fail> {
    let conn = Connection::open(rt, "keeper_sql_counted/alice.db")?;
    let keeper = SqlKeeper::adopt(rt.alloc(), conn, &mut 4)?;
    let told = asked(rt.alloc(), store, &Ask::Rows("alice"));
    store.back("alice", keeper);
    told
}

#[test]
fn the_faults_of_a_keeper_count_once_it_is_back(rt: HostRuntime) -> Result<(), Fail> {
    let folder = "keeper_sql_counted";
    make_folder(&rt, folder)?;
    let mut store = SqlStore::new(&rt, folder)?;
    assert!(rt; back_told(&rt, &mut store)?.as_str() == "failed\n");
    assert!(rt; store.faults() == 5);
    assert!(rt; store.keep("alice")?.faults() == 0);
    fs::remove_dir_all(&rt, folder)?;
    Ok(())
}
