//! Keepers over the files of a folder, taken by name.

ghost use Rattle.std.specs.Prelude.{◌≡◌, ◌++◌, ⊤, None, IfOk, codes};
ghost use Rattle.std.specs.String.{string_bytes};

use crate::sql_keeper::{SqlKeeper, refusal};
use dh_base::{Name, NoMemory};
use keeper_core::{KeepFault, Keeper, Store};
use sqlite::{Connection, Error, ErrorCode, File, FileStore};
use std::alloc::{AllocError, Global};
use std::rt::HostRuntime;

/// A store of keepers over the files of a folder, that of a name at `NAME.db`. It tells none of its
/// maps, since no contract knows what a file holds.
#[derive(Drop)]
pub struct SqlStore {
    rt: HostRuntime,
    folder: String,
    faults: u64,
}

/// The path of a name's file. No name has a dot in it, so the log that lies beside a file is no
/// other name's file.
fn path_of(alloc: Global, folder: &str, name: &str) -> Result<String, AllocError>
    ensures { IfOk result (λ path. string_bytes path
        ≡ folder.now ++ codes "/" ++ name.now ++ codes ".db") }
{
    let mut path = String::from_str(alloc, folder)?;
    path.push_str("/")?;
    path.push_str(name)?;
    path.push_str(".db")?;
    Ok(path)
}

impl SqlStore {
    /// A store over the files of a folder, which must be there when a keeper is taken.
    pub fn new(rt: &HostRuntime, folder: &str) -> Result<SqlStore, NoMemory>
        ensures { IfOk result (λ store. store.faults ≡ 0) }
    {
        Ok(SqlStore {
            rt: *rt,
            folder: String::from_str(rt.alloc(), folder)?,
            faults: 0,
        })
    }

    /// How many calls have failed, of the store and of the keepers that came back.
    pub fn faults(&self) -> u64
        ensures { result ≡ self.now.faults }
    {
        self.faults
    }

    /// A connection to the file of a name, which is made where it isn't there.
    fn open(&self, name: &str) -> Result<Connection<FileStore<File>>, Error> {
        if Name::from_bytes(name.as_bytes()).is_err() {
            return Err(Error::SqliteFailure(ErrorCode::CannotOpen));
        }
        let path = path_of(self.rt.alloc(), self.folder.as_str(), name)?;
        Connection::open(&self.rt, path.as_str())
    }
}

impl Store for SqlStore {
    type Keep = SqlKeeper<FileStore<File>>;

    ghost map_of = { λ _ _. None };

    ghost has_room = { λ _ _. ⊤ };

    ghost faults = { λ s. s.faults };

    /// Only a name of this project has a file. What the file lacks of a keeper's is refused as a
    /// failure, and so is a file that is held elsewhere.
    fn keep(&mut self, name: &str) -> Result<SqlKeeper<FileStore<File>>, KeepFault> {
        match self.open(name) {
            Ok(conn) => {
                let mut failed = 0;
                let kept = SqlKeeper::adopt(self.rt.alloc(), conn, &mut failed);
                self.faults = self.faults.saturating_add(failed);
                kept
            }
            Err(error) => Err(refusal(error, &mut self.faults)),
        }
    }

    /// The file is shut, and holds the map.
    fn back(&mut self, _name: &str, keep: SqlKeeper<FileStore<File>>) {
        self.faults = self.faults.saturating_add(keep.faults());
    }
}
