//! Which version of our tables a store has.

ghost use Rattle.std.specs.Prelude.{◌≡◌, ◌↔◌, IsTrue, IfOk};
ghost use Rattle.sqlite.specs.Held.{state};
ghost use Rattle.sqlite.specs.Steps.{over_memory};
ghost use Rattle.dh_ddl.specs.Versions.{IsOf, IsOurs, schema_of};

use crate::creation::create_all;
use crate::schema_equality::is_same_schema;
use dh_types::Version;
use sqlite::{Alter, Connection, Error, MemStore};
use sqlite_schema::schema::Schema;
use std::alloc::Global;

/// Whether the schema is this one of ours, where `ours` is that of a store in which the tables were just made. How a text
/// was spelled is no part of a schema; the order in which the tables were made is.
pub fn is_ours(schema: &Schema, ours: &Schema) -> bool
    requires { IsOurs ours.now }
    ensures { IsTrue result ↔ (schema.now ≡ ours.now) }
{
    is_same_schema(schema, ours)
}

/// A store in memory in which the tables of a version were just made. An error comes where it could not make them.
pub fn store_of(alloc: Global, version: Version) -> Result<Connection<MemStore>, Error>
    ensures { IfOk result (λ conn. (state over_memory conn).now.schema ≡ schema_of version) }
{
    let mut conn = Connection::open_in_memory(alloc)?;
    let mut tx = conn.transaction();
    create_all(&mut tx, version)?;
    tx.commit()?;
    Ok(conn)
}

/// Whether the store has exactly the tables and indexes of a version, made in our order: names, columns, keys, references
/// and all. It compares with a store in memory, and an error comes where that one could not be made.
pub fn has_tables_of<S: Alter>(
    alloc: Global,
    conn: &Connection<S>,
    version: Version,
) -> Result<bool, Error>
    ensures { IfOk result (λ has. IsTrue has ↔ ((state S.Store conn.now).now.schema ≡ schema_of version)) }
{
    let ours = store_of(alloc, version)?;
    Ok(is_ours(conn.schema(), ours.schema()))
}

/// The version of whose tables and indexes the store has exactly those, if it is one of ours.
pub fn tables_found<S: Alter>(alloc: Global, conn: &Connection<S>) -> Result<Option<Version>, Error>
    ensures { IfOk result (λ found. IsOf found (state S.Store conn.now).now.schema) }
{
    if has_tables_of(alloc, conn, Version::First)? {
        return Ok(Some(Version::First));
    }
    if has_tables_of(alloc, conn, Version::Second)? {
        return Ok(Some(Version::Second));
    }
    Ok(None)
}
