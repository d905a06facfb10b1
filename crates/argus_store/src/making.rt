//! Makes the tables of a log, in one transaction.

ghost use Rattle.std.specs.Prelude.{◌≡◌, ◌≢◌, ◌↔◌, IsTrue, IfOk, false, pos};
ghost use Rattle.sqlite.specs.{State.{HasCleanDisk, Survives, ExecutesInside}, Held.state};
ghost use Rattle.argus_store.specs.{Tables.no_schema, Journal.new_journal, Store.HasLog};
ghost use Rattle.argus_store.specs.Making.{begin_row, begin_text};

use sqlite::{Alter, Connection, Error, Transaction, params};
use sqlite_schema::schema::Schema;

/// Whether it has no table, index or view.
fn is_blank(schema: &Schema) -> bool
    ensures { IsTrue result ↔ (schema.now ≡ no_schema) }
{
    schema.tables.is_empty() && schema.indexes.is_empty() && schema.views.is_empty()
}

/// Puts in the row that says whose log it is.
fn begin<S: Alter>(
    tx: &mut Transaction<'_, S>,
    name: &str,
    version: &str,
    sum: u32,
) -> Result<usize, Error>
    ensures same_reference { tx.new.conn.ghost_name ≡ tx.old.conn.ghost_name }
    ensures runs { HasCleanDisk (state S.Store tx.new.conn.now)
        → IsTrue (state S.Store tx.old.conn.now).in_transaction
        → ExecutesInside 0 begin_text (begin_row name.now version.now (pos sum))
        (state S.Store tx.old.conn.now) (state S.Store tx.new.conn.now) result }
    ensures survives { Survives
        (state S.Store tx.old.conn.now) (state S.Store tx.new.conn.now) (λ _. ⊥) }
{
    tx.execute(
        "INSERT INTO log VALUES (0, ?1, ?2, 0, 0, 0, ?3)",
        params![name, version, i64::from(sum)],
    )
}

/// Whether the database was empty and has the tables now, with no batch.
pub(crate) fn make<S: Alter>(
    conn: &mut Connection<S>,
    name: &str,
    version: &str,
    sum: u32,
) -> Result<bool, Error>
    ensures made { HasCleanDisk (state S.Store conn.new) → IfOk result (λ done. IsTrue done
        → HasLog (state S.Store conn.new) (new_journal name.now version.now (pos sum))) }
    ensures refused { conn.old.in_transaction ≡ false
        → IfOk result (λ done. done ≡ false → conn.old.schema ≢ no_schema) }
{
    if !conn.is_autocommit() || !is_blank(conn.schema()) {
        return Ok(false);
    }
    let mut tx = conn.transaction();
    tx.execute(
        "CREATE TABLE log     (id INTEGER PRIMARY KEY CHECK (id = 0), name TEXT NOT NULL, \
         version TEXT NOT NULL,\n                      epoch INTEGER NOT NULL, \
         is_open INTEGER NOT NULL, next_entry INTEGER NOT NULL,\n                      \
         sum INTEGER NOT NULL) STRICT",
        &[],
    )?;
    tx.execute(
        "CREATE TABLE opening (line INTEGER PRIMARY KEY, text TEXT NOT NULL) STRICT",
        &[],
    )?;
    tx.execute(
        "CREATE TABLE batch   (first INTEGER PRIMARY KEY, lines TEXT NOT NULL, \
         sum INTEGER NOT NULL) STRICT",
        &[],
    )?;
    tx.execute(
        "CREATE TABLE object  (number INTEGER PRIMARY KEY, name TEXT UNIQUE, \
         shape TEXT NOT NULL, base TEXT) STRICT",
        &[],
    )?;
    begin(&mut tx, name, version, sum)?;
    tx.commit()?;
    Ok(true)
}
