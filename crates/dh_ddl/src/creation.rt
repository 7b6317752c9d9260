//! Making the tables.

ghost use Rattle.std.specs.Prelude.{◌≡◌, [], ◌∷◌, IsTrue, OnOk};
ghost use Rattle.sqlite.specs.State.{HasCleanDisk, KeepsCommit, Survives};
ghost use Rattle.sqlite.specs.Held.{state};
ghost use Rattle.dh_ddl.specs.Layout.{first_schema, no_schema};
ghost use Rattle.dh_ddl.specs.Making.{IsWritingOn, HasEmptyTables, HasGrown, Makes, all_of};

use crate::texts::{FIRST, FIRST_TO_SECOND, SECOND};
use dh_types::Version;
use sqlite::{Alter, Error, Transaction};

// Runs the text, which makes a table or an index, or takes an index away.
fn create<S: Alter>(tx: &mut Transaction<'_, S>, text: &str) -> Result<(), Error>
    requires { HasCleanDisk (state S.Store tx.old.conn.now) → IsTrue (state S.Store tx.old.conn.now).in_transaction }
    ensures same_reference { tx.new.conn.ghost_name ≡ tx.old.conn.ghost_name }
    ensures inside { HasCleanDisk (state S.Store tx.new.conn.now) → OnOk result (IsTrue (state S.Store tx.new.conn.now).in_transaction) }
    ensures made { HasCleanDisk (state S.Store tx.new.conn.now)
        → OnOk result (Makes (text.now ∷ []) (state S.Store tx.old.conn.now) (state S.Store tx.new.conn.now)) }
    ensures kept { HasCleanDisk (state S.Store tx.new.conn.now) → KeepsCommit (state S.Store tx.old.conn.now) (state S.Store tx.new.conn.now) }
    ensures crash { Survives (state S.Store tx.old.conn.now) (state S.Store tx.new.conn.now) (λ _. ⊥) }
{
    tx.execute(text, &[])?;
    Ok(())
}

// Runs the texts, one after the other.
fn create_each<S: Alter>(tx: &mut Transaction<'_, S>, texts: &[&str]) -> Result<(), Error>
    requires { HasCleanDisk (state S.Store tx.old.conn.now) → IsTrue (state S.Store tx.old.conn.now).in_transaction }
    ensures same_reference { tx.new.conn.ghost_name ≡ tx.old.conn.ghost_name }
    ensures made { HasCleanDisk (state S.Store tx.new.conn.now)
        → OnOk result (Makes (all_of texts.now) (state S.Store tx.old.conn.now) (state S.Store tx.new.conn.now)) }
    ensures kept { HasCleanDisk (state S.Store tx.new.conn.now) → KeepsCommit (state S.Store tx.old.conn.now) (state S.Store tx.new.conn.now) }
    ensures crash { Survives (state S.Store tx.old.conn.now) (state S.Store tx.new.conn.now) (λ _. ⊥) }
{
    for text in texts {
        create(tx, text)?;
    }
    Ok(())
}

/// Makes the tables of a version and their indexes in a store that has none. An error comes where a text is refused or
/// the store fails, and then nothing is committed.
pub fn create_all<S: Alter>(tx: &mut Transaction<'_, S>, version: Version) -> Result<(), Error>
    requires { HasCleanDisk (state S.Store tx.old.conn.now) → IsWritingOn no_schema (state S.Store tx.old.conn.now) }
    ensures same_reference { tx.new.conn.ghost_name ≡ tx.old.conn.ghost_name }
    ensures made { HasCleanDisk (state S.Store tx.new.conn.now) → OnOk result (HasEmptyTables version (state S.Store tx.new.conn.now)) }
    ensures kept { HasCleanDisk (state S.Store tx.new.conn.now) → KeepsCommit (state S.Store tx.old.conn.now) (state S.Store tx.new.conn.now) }
    ensures crash { Survives (state S.Store tx.old.conn.now) (state S.Store tx.new.conn.now) (λ _. ⊥) }
{
    match version {
        Version::First => create_each(tx, &FIRST),
        Version::Second => create_each(tx, &SECOND),
    }
}

/// Makes the tables that came with the second version in a store of the first, and its indexes for look-ups anew behind them. The other
/// tables keep their rows. An error comes where a text is refused or the store fails, and then nothing is committed.
pub fn create_later<S: Alter>(tx: &mut Transaction<'_, S>) -> Result<(), Error>
    requires { HasCleanDisk (state S.Store tx.old.conn.now) → IsWritingOn first_schema (state S.Store tx.old.conn.now) }
    ensures same_reference { tx.new.conn.ghost_name ≡ tx.old.conn.ghost_name }
    ensures made { HasCleanDisk (state S.Store tx.new.conn.now)
        → OnOk result (HasGrown (state S.Store tx.old.conn.now) (state S.Store tx.new.conn.now)) }
    ensures kept { HasCleanDisk (state S.Store tx.new.conn.now) → KeepsCommit (state S.Store tx.old.conn.now) (state S.Store tx.new.conn.now) }
    ensures crash { Survives (state S.Store tx.old.conn.now) (state S.Store tx.new.conn.now) (λ _. ⊥) }
{
    create_each(tx, &FIRST_TO_SECOND)
}
