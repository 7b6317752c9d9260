//! Which version a file is of.

ghost use Rattle.std.specs.Prelude.{◌≡◌, pos, Some, Err, IfErr, IfNone, IfOk, IfSome};
ghost use Rattle.sqlite.specs.State.{HasCleanDisk};
ghost use Rattle.sqlite.specs.Held.{state};
ghost use Rattle.dh_types.specs.declared.version.Version.{Version};
ghost use Rattle.dh_rows.specs.Cells.{version_number};
ghost use Rattle.dh_ddl.specs.Versions.{schema_of};
ghost use Rattle.dh_tables.specs.MetaTable.{meta_rows};
ghost use Rattle.dh_schema.specs.LoadFaults.{IsLoadFault, IsTurnedAway};
ghost use Rattle.dh_schema.specs.Version.{only_version};

use crate::fault::StoreFault;
use crate::load_fault::LoadFault;
use dh_types::Version;
use sqlite::{Alter, Connection};
use std::marker::Model;

/// Whose tables a file has, and what meta gives as its version: what was read, and nothing else.
#[derive(Clone, Copy, Debug)]
pub struct FileVersion {
    tables: Version,
    number: i64,
}

impl Model for FileVersion {
    ghost use Rattle.dh_schema.specs.Version.{VersionFound};

    ghost Value = { VersionFound };

    ghost view = { λ f. record { tables = f.tables; number = f.number } };

    ghost inverse = { λ f. record { tables = f.tables; number = f.number } };
}

// The version that has the number.
fn numbered(number: i64) -> Option<Version>
    ensures found { IfSome result (λ version. number ≡ pos (version_number version)) }
    ensures none { IfNone result ((version : Version) → number ≡ pos (version_number version) → ⊥) }
{
    match number {
        1 => Some(Version::First),
        2 => Some(Version::Second),
        _ => None,
    }
}

impl FileVersion {
    // The tables and the number that the file shows, where its store is clean.
    pub(crate) fn found<S: Alter>(
        _conn: &Connection<S>,
        tables: Version,
        number: i64,
    ) -> FileVersion
        requires tables { HasCleanDisk (state S.Store _conn.now) → (state S.Store _conn.now).now.schema ≡ schema_of tables }
        requires number { HasCleanDisk (state S.Store _conn.now)
            → only_version (meta_rows (state S.Store _conn.now).now.trees) ≡ Some number }
        ensures { result ≡ record { tables = tables; number = number } }
    {
        FileVersion { tables, number }
    }

    /// The version whose tables they are.
    pub fn tables(self) -> Version
        ensures { result ≡ self.tables }
    {
        self.tables
    }

    /// The number that meta gives.
    pub fn number(self) -> i64
        ensures { result ≡ self.number }
    {
        self.number
    }

    /// The version of the file, where meta gives the one whose tables it has. `Damaged` comes where meta gives no version of ours,
    /// and a fault of the store where it gives the other one.
    pub fn agreed(self) -> Result<Version, LoadFault>
        ensures same { IfOk result (λ version. (version ≡ self.tables) × (self.number ≡ pos (version_number version))) }
        ensures damaged { result ≡ Err LoadFault.Damaged → (version : Version) → self.number ≡ pos (version_number version) → ⊥ }
        ensures cause { IfErr result IsLoadFault }
        ensures another { (version : Version) → self.number ≡ pos (version_number version) → ((version ≡ self.tables) → ⊥) → IsTurnedAway result }
    {
        match numbered(self.number) {
            None => Err(LoadFault::Damaged),
            Some(version) if version == self.tables => Ok(version),
            Some(_) => Err(LoadFault::Fault(StoreFault::of_other_version(self))),
        }
    }
}
