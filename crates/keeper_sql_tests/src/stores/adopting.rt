//! Which databases a keeper adopts, and which it refuses.

use super::*;

/// Statements that make a keeper's database, and the rows that table 2 then has.
const KEEPERS: [(&str, &str); 4] = [
    ("", "\n"),
    (
        "CREATE TABLE cell(tab INTEGER NOT NULL, key BLOB NOT NULL, val BLOB NOT NULL, PRIMARY KEY (tab, key)) STRICT",
        "\n",
    ),
    (
        "create table cell(tab integer not null, key blob not null, val blob not null, primary key (tab, key)) strict",
        "\n",
    ),
    (
        "CREATE TABLE cell(tab INTEGER NOT NULL, key BLOB NOT NULL, val BLOB NOT NULL, PRIMARY KEY (tab, key)) STRICT;
         INSERT INTO cell VALUES (2, x'6b', x'61'), (0, x'', x''), (255, x'6a', x'31'), (2, x'6a', x'31')",
        "j=1 k=a \n",
    ),
];

/// Statements that make a database that is no keeper's: one with another table, a table of another
/// form, the keeper's table beside something else, or a row whose number no table of a keeper has.
const OTHERS: [&str; 18] = [
    "CREATE TABLE note(tab INTEGER NOT NULL, key BLOB NOT NULL, val BLOB NOT NULL, PRIMARY KEY (tab, key)) STRICT",
    "CREATE TABLE cell(tab INTEGER NOT NULL, key BLOB NOT NULL, val BLOB NOT NULL) STRICT",
    "CREATE TABLE cell(tab INTEGER NOT NULL, key BLOB NOT NULL, val BLOB NOT NULL, PRIMARY KEY (key, tab)) STRICT",
    "CREATE TABLE cell(tab INTEGER NOT NULL, key BLOB NOT NULL, val BLOB NOT NULL, PRIMARY KEY (tab, key DESC)) STRICT",
    "CREATE TABLE cell(tab INTEGER NOT NULL, key BLOB NOT NULL, val BLOB NOT NULL, PRIMARY KEY (tab, key, val)) STRICT",
    "CREATE TABLE cell(tab INTEGER NOT NULL, key BLOB NOT NULL, val BLOB NOT NULL, UNIQUE (val), PRIMARY KEY (tab, key)) STRICT",
    "CREATE TABLE cell(tab INTEGER NOT NULL, key BLOB NOT NULL, val BLOB, PRIMARY KEY (tab, key)) STRICT",
    "CREATE TABLE cell(tab INTEGER NOT NULL, key BLOB NOT NULL, val BLOB NOT NULL DEFAULT x'00', PRIMARY KEY (tab, key)) STRICT",
    "CREATE TABLE cell(tab INTEGER NOT NULL, key TEXT NOT NULL, val BLOB NOT NULL, PRIMARY KEY (tab, key)) STRICT",
    "CREATE TABLE cell(tab INTEGER NOT NULL, key BLOB NOT NULL, val BLOB NOT NULL, PRIMARY KEY (tab, key))",
    "CREATE TABLE cell(key BLOB NOT NULL, tab INTEGER NOT NULL, val BLOB NOT NULL, PRIMARY KEY (tab, key)) STRICT",
    "CREATE TABLE cell(tab INTEGER NOT NULL, key BLOB NOT NULL, val BLOB NOT NULL, more BLOB NOT NULL, PRIMARY KEY (tab, key)) STRICT",
    "CREATE TABLE cell(tab INTEGER NOT NULL CHECK (tab < 9), key BLOB NOT NULL, val BLOB NOT NULL, PRIMARY KEY (tab, key)) STRICT",
    "CREATE TABLE cell(tab INTEGER NOT NULL, key BLOB NOT NULL, val BLOB NOT NULL, PRIMARY KEY (tab, key)) STRICT;
     CREATE TABLE note(text TEXT) STRICT",
    "CREATE TABLE cell(tab INTEGER NOT NULL, key BLOB NOT NULL, val BLOB NOT NULL, PRIMARY KEY (tab, key)) STRICT;
     CREATE INDEX by_val ON cell(val)",
    "CREATE TABLE cell(tab INTEGER NOT NULL, key BLOB NOT NULL, val BLOB NOT NULL, PRIMARY KEY (tab, key)) STRICT;
     CREATE VIEW near AS SELECT key FROM cell WHERE tab = 2",
    "CREATE TABLE cell(tab INTEGER NOT NULL, key BLOB NOT NULL, val BLOB NOT NULL, PRIMARY KEY (tab, key)) STRICT;
     INSERT INTO cell VALUES (2, x'6b', x'61'), (-1, x'6b', x'61')",
    "CREATE TABLE cell(tab INTEGER NOT NULL, key BLOB NOT NULL, val BLOB NOT NULL, PRIMARY KEY (tab, key)) STRICT;
     INSERT INTO cell VALUES (2, x'6b', x'61'), (256, x'6b', x'61')",
];

/// The rows of table 2 of a keeper that adopts the connection and begins with 5 faults, or why it
/// is refused; and how many faults the keeper and its caller then count.
fn adopted(alloc: Global, conn: Connection<MemStore>) -> Result<(String, u64, u64), Fail> {
    let mut faults = 5;
    match SqlKeeper::adopt(alloc, conn, &mut faults) {
        Ok(keeper) => {
            let mut keeper = keeper;
            let told = rows(alloc, &mut keeper, 2)?;
            Ok((told, keeper.faults(), faults))
        }
        Err(fault) => Ok((format!(in alloc; "{fault}")?, 0, faults)),
    }
}

/// Whether a keeper has these rows and no more faults.
fn has_rows(alloc: Global, sql: &str, wanted: &str) -> Result<bool, Fail> {
    let (told, own, faults) = adopted(alloc, made(alloc, sql)?)?;
    Ok(told.as_str() == wanted && own == 5 && faults == 5)
}

/// Whether the database is refused and counted once.
fn is_refused(alloc: Global, sql: &str) -> Result<bool, Fail> {
    let (told, _, faults) = adopted(alloc, made(alloc, sql)?)?;
    Ok(told.as_str() == "failed" && faults == 6)
}

#[test]
fn a_keepers_database_is_adopted(rt: HostRuntime) -> Result<(), Fail> {
    for (sql, wanted) in KEEPERS {
        assert!(rt; has_rows(rt.alloc(), sql, wanted)?, "at {sql}");
    }
    Ok(())
}

#[test]
fn another_database_is_refused_and_counted_once(rt: HostRuntime) -> Result<(), Fail> {
    for sql in OTHERS {
        assert!(rt; is_refused(rt.alloc(), sql)?, "at {sql}");
    }
    Ok(())
}

#[test]
fn what_is_not_committed_is_not_adopted(rt: HostRuntime) -> Result<(), Fail> {
    let sql =
        "CREATE TABLE cell(tab INTEGER NOT NULL, key BLOB NOT NULL, val BLOB NOT NULL, PRIMARY KEY (tab, key)) STRICT;
         INSERT INTO cell VALUES (2, x'6a', x'31'); BEGIN; INSERT INTO cell VALUES (2, x'6b', x'61')";
    assert!(rt; has_rows(rt.alloc(), sql, "j=1 \n")?);
    Ok(())
}
